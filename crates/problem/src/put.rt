// A node and its eight bytes, nodes laid into a lent buffer one after the other, and what stands before a problem's nodes.
ghost use Rattle.std.specs.Prelude.{◌≡◌, ◌+◌, ◌*◌, ◌<◌, ◌≤◌, length};
ghost use Rattle.definitions.specs.Lists.{snoc};
ghost use Rattle.definitions.specs.Problem.Node.{plain, node_at, node_bytes};
ghost use Rattle.definitions.specs.Problem.Ops.{fields_of};
ghost use Rattle.definitions.specs.Operations.Buffers.{over};
ghost use Rattle.problem.specs.Lays.{Lays};
ghost use Rattle.problem.specs.Nodes.{node_read, front_bytes};
ghost use Rattle.problem.specs.Ops.{byte_of};

use crate::bytes::put;
use crate::ops::Op;

// A node as numbers: its op, its symbol and its operand numbers.
#[derive(Clone, Copy, PartialEq, Eq)]
pub struct Node {
    pub op: u8,
    pub symbol: u8,
    pub a: u16,
    pub b: u16,
    pub c: u16,
}

impl Node {
    // A node of an op that has no symbol.
    pub fn plain(op: Op, a: u16, b: u16, c: u16) -> Self
        ensures { node_read result ≡ plain (byte_of op) a b c }
    {
        Node {
            op: op.byte(),
            symbol: 0,
            a,
            b,
            c,
        }
    }

    // The node that stands at an offset.
    pub fn read(s: &[u8], at: usize) -> Self
        requires { at + 8 ≤ length s.now }
        ensures { node_read result ≡ node_at s.now at }
    {
        Node {
            op: s[at],
            symbol: s[at + 1],
            a: u16::from_le_bytes([s[at + 2], s[at + 3]]),
            b: u16::from_le_bytes([s[at + 4], s[at + 5]]),
            c: u16::from_le_bytes([s[at + 6], s[at + 7]]),
        }
    }

    // The three operand fields, in use or not.
    pub fn operands(self) -> [u16; 3]
        ensures { result ≡ fields_of (node_read self) }
    {
        [self.a, self.b, self.c]
    }

    pub fn bytes(self) -> [u8; 8]
        ensures { result ≡ node_bytes (node_read self) }
    {
        let [a0, a1] = self.a.to_le_bytes();
        let [b0, b1] = self.b.to_le_bytes();
        let [c0, c1] = self.c.to_le_bytes();
        [self.op, self.symbol, a0, a1, b0, b1, c0, c1]
    }
}

// A node's eight bytes go to the start of a lent tail.
pub fn put_node(tail: &mut [u8], node: Node)
    requires { 8 ≤ length tail.old }
    ensures { tail.new ≡ over (node_bytes (node_read node)) tail.old }
{
    put(tail, &node.bytes());
}

// One node more, after the count nodes already laid.
pub fn lay(work: &mut [u8], count: usize, node: Node)
    requires { (8 * count + 8 ≤ length work.old) × (count < 2632) }
    ensures { Lays work.old work.new count (count + 1) (λ t. snoc t (node_read node)) }
{
    put_node(&mut work[8 * count..], node);
}

// All before a problem's nodes: the mark, the version, the two counts and the symbol bytes.
pub fn put_front(whole: &mut [u8], symbols: &[u8], count: usize)
    requires { (40 ≤ length whole.old) × (length symbols.now ≤ 32) × (count ≤ 256) }
    ensures { whole.new ≡ over (front_bytes symbols.now count) whole.old }
{
    let [low, high] = (count as u16).to_le_bytes();
    put(
        whole,
        &[b'E', b'Q', b'P', 1, 0, symbols.len() as u8, low, high],
    );
    put(&mut whole[8..], symbols);
}
