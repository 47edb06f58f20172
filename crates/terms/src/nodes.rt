// The table of nodes under construction: an equal node, or one appended (02, E1: "equal nodes stand once").
ghost use Rattle.std.specs.Prelude.{◌≡◌, ◌≤◌, Option, List, [], map, length};
ghost use Rattle.std.specs.Option.{option_map};
ghost use Rattle.definitions.specs.Problem.Node.{plain, table_bytes};
ghost use Rattle.definitions.specs.Problem.Node as table;
ghost use Rattle.definitions.specs.Text.Nodes.{place_of};
ghost use Rattle.definitions.specs.Text.Nodes as trees;
ghost use Rattle.definitions.specs.Operations.Buffers.{over};
ghost use Rattle.problem.specs.Nodes.{node_read};
ghost use Rattle.problem.specs.Ops.{byte_of};
ghost use Rattle.problem.specs.Stages.{found_of};
ghost use Rattle.terms.specs.Tables.{ZerosPast, nodes_back, nodes_are, count_is};
ghost use Rattle.terms.specs.Laying.{table_of, FewCounted, standing, Performs, appended};

use problem::ops::Op;
use problem::put::{Node, put_node};
use std::marker::Model;

// The nodes that are laid, as many as the count says, and zeros past them. There is none once more were asked for than a problem may
// have: then nothing is laid any more.
#[derive(Clone, Copy)]
pub struct Table {
    nodes: [Node; 256],
    count: Option<usize>,
}

impl Model for Table {
    ghost Value = { Option (List table.Node) };

    ghost view = { λ t. table_of t.nodes t.count };

    ghost invariant = { λ t. (length t.nodes ≡ 256) × FewCounted t.count × ZerosPast t.nodes t.count };

    ghost inverse = { λ t. record { nodes = nodes_back t; count = option_map length t } };

    ghost inverse_ok = { λ t h i. record { nodes = nodes_are t.nodes t.count h.2 i; count = count_is t.nodes t.count h.1 h.2 i } };
}

// The number of the first of some nodes that is equal.
fn find(nodes: &[Node], node: Node) -> Option<usize>
    ensures { found_of result ≡ place_of (node_read node) (map node_read nodes.now) }
{
    (0..nodes.len()).find(|k| node == nodes[*k])
}

impl Table {
    // What stands past the count is all zeros, which are cleared at once.
    pub fn new() -> Self
        ensures { result ≡ Some [] }
    {
        Table {
            nodes: [Node::plain(Op::Apply, 0, 0, 0); 256],
            count: Some(0),
        }
    }

    // How many nodes are laid, where there is room for all.
    pub fn count(&self) -> Option<usize>
        ensures counts { result ≡ option_map length self.now }
        ensures few { FewCounted result }
    {
        self.count
    }

    // More is asked for than a problem may have. The nodes are cleared, so that a table says all that its memory holds, as a copy needs.
    pub fn give_up(&mut self)
        ensures { self.new ≡ None }
    {
        if self.count.is_some() {
            self.nodes = [Node::plain(Op::Apply, 0, 0, 0); 256];
            self.count = None;
        }
    }

    // A node behind the others: its number, which says nothing where there is no room for the node.
    pub fn append(&mut self, node: Node) -> u8
        ensures { Performs (appended (node_read node)) self.old result self.new }
    {
        let Some(count) = self.count else {
            return 0;
        };
        if count == 256 {
            self.give_up();
            return 0;
        }
        self.nodes[count] = node;
        self.count = Some(count + 1);
        count as u8
    }

    // The number of an equal node, or of the node appended; it says nothing where there is no room.
    pub fn ask(&mut self, node: Node) -> u8
        ensures { Performs (trees.ask (node_read node)) self.old result self.new }
    {
        let Some(count) = self.count else {
            return 0;
        };
        match find(&self.nodes[..count], node) {
            Some(number) => number as u8,
            None => self.append(node),
        }
    }

    // A node of an op over two numbers.
    pub fn pair(&mut self, op: Op, a: u8, b: u8) -> u8
        ensures { Performs (trees.ask (plain (byte_of op) a b 0)) self.old result self.new }
    {
        self.ask(Node::plain(op, u16::from(a), u16::from(b), 0))
    }

    // The nodes' bytes go to the start of a lent tail.
    pub fn put(&self, tail: &mut [u8])
        requires { 2048 ≤ length tail.old }
        ensures { tail.new ≡ over (table_bytes (standing self.now)) tail.old }
    {
        let count = self.count.unwrap_or(0);
        for (k, node) in self.nodes[..count].iter().enumerate() {
            put_node(&mut tail[8 * k..], *node);
        }
    }
}
