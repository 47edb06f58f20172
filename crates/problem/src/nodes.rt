// The nodes: condition 7, each node after those before it.
ghost use Rattle.std.specs.Prelude.{◌≡◌, ◌<◌, [], take};
ghost use Rattle.definitions.specs.Problem.Node.{node};
ghost use Rattle.definitions.specs.Problem.Ops.{op_of, sort_of, same_sort, term, operand_sorts, arity, sorts_of, count_of, node_right, symbol_right};
ghost use Rattle.definitions.specs.Problem.Check.{symbols_of, nodes_of, node_count, first_wrong};
ghost use Rattle.problem.specs.Nodes.{node_read};
ghost use Rattle.problem.specs.Ops.{op_read};
ghost use Rattle.problem.specs.Stages.{found_of};
ghost use Rattle.problem.specs.Wanted.{sort_read, wanted_read, sort_wanted, slot_right};

use crate::head::Problem;
use crate::ops::{Op, Sort};
use crate::put::Node;

impl<'a> Problem<'a> {
    pub fn symbol_bytes(&self) -> &'a [u8]
        ensures { result.now ≡ symbols_of self.now }
    {
        &self.bytes[8..8 + self.symbols]
    }

    // Node k.
    #[tactic(auto, using(crate::proofs::NodeLaws::node_stands))]
    pub fn node(&self, k: usize) -> Node
        requires { k < node_count self.now }
        ensures { node_read result ≡ node (nodes_of self.now) k }
    {
        Node::read(self.bytes, 8 + self.symbols + 8 * k)
    }

    // The sort of a node is read off its op.
    pub fn is_term(&self, k: usize) -> bool
        requires { k < node_count self.now }
        ensures { result ≡ same_sort (sort_of (op_of (node (nodes_of self.now) k).op)) term }
    {
        self.has_sort(k, Sort::Term)
    }

    fn has_sort(&self, k: usize, sort: Sort) -> bool
        requires { k < node_count self.now }
        ensures { result ≡ same_sort (sort_of (op_of (node (nodes_of self.now) k).op)) (sort_read sort) }
    {
        Op::from(self.node(k).op).sort() == sort
    }

    // The arity of a symbol; 0 past the last.
    pub fn arity(&self, symbol: usize) -> usize
        ensures { (result ≡ arity (symbols_of self.now) symbol) × (result < 16) }
    {
        match self.symbol_bytes().get(symbol) {
            Some(byte) => usize::from(*byte % 16),
            None => 0,
        }
    }

    // How many operand fields of a node of this problem are in use.
    pub fn in_use(&self, node: Node) -> usize
        ensures { result ≡ count_of (sorts_of (symbols_of self.now) (node_read node)) }
    {
        Op::from(node.op).in_use(self.arity(usize::from(node.symbol)))
    }

    // The symbol field of a node of an op is right: a known symbol of the op's kind, and 0 where the op has none.
    fn symbol_right(&self, op: Op, symbol: u8) -> bool
        ensures { result ≡ symbol_right (symbols_of self.now) (op_read op) symbol }
    {
        let byte = self.symbol_bytes().get(usize::from(symbol));
        match op {
            Op::Apply => matches!(byte, Some(0..4)),
            Op::Test => matches!(byte, Some(16..20)),
            Op::Unknown => false,
            _ => symbol == 0,
        }
    }

    // An operand of node k is right for what is wanted there.
    #[tactic(auto, using(crate::proofs::NodeLaws::slot_later, crate::proofs::NodeLaws::slot_earlier))]
    fn operand_right(&self, k: usize, wanted: Option<Sort>, operand: u16) -> bool
        requires { k < node_count self.now }
        ensures { result ≡ slot_right (take k (nodes_of self.now)) (wanted_read wanted) operand }
    {
        let operand = usize::from(operand);
        match wanted {
            None => operand == 0,
            Some(sort) => operand < k && self.has_sort(operand, sort),
        }
    }

    // Node k is right after those before it.
    #[tactic(auto, using(crate::proofs::NodeLaws::node_fields))]
    pub fn node_right(&self, k: usize) -> bool
        requires { k < node_count self.now }
        ensures { result ≡ node_right (symbols_of self.now) (take k (nodes_of self.now)) (node (nodes_of self.now) k) }
    {
        let node = self.node(k);
        let op = Op::from(node.op);
        let arity = self.arity(usize::from(node.symbol));
        self.symbol_right(op, node.symbol)
            && self.operand_right(k, op.wants(arity, 0), node.a)
            && self.operand_right(k, op.wants(arity, 1), node.b)
            && self.operand_right(k, op.wants(arity, 2), node.c)
    }

    // The number of the first node that is not right.
    pub fn first_wrong(&self) -> Option<usize>
        ensures { found_of result ≡ first_wrong (symbols_of self.now) [] (nodes_of self.now) }
    {
        (0..self.nodes).find(|k| !self.node_right(*k))
    }
}

impl Op {
    // The sort that a node of this op, with a symbol of this arity, wants at operand field j, if the field is in use.
    #[tactic(auto, using(crate::proofs::NodeLaws::wants_none, crate::proofs::NodeLaws::wants_term))]
    pub fn wants(self, arity: usize, j: usize) -> Option<Sort>
        requires { j < 3 }
        ensures { wanted_read result ≡ sort_wanted (operand_sorts (op_read self) arity) j }
    {
        if self.in_use(arity) <= j {
            return None;
        }
        match self {
            Op::Apply | Op::Test | Op::Equal => Some(Sort::Term),
            Op::Choose if j != 0 => Some(Sort::Term),
            _ => Some(Sort::Formula),
        }
    }

    // How many operand fields a node of this op uses, with a symbol of this arity.
    pub fn in_use(self, arity: usize) -> usize
        ensures { result ≡ count_of (operand_sorts (op_read self) arity) }
    {
        match self {
            Op::Apply | Op::Test => arity,
            Op::Choose | Op::Select => 3,
            Op::Equal | Op::Both | Op::Either => 2,
            Op::Negate => 1,
            Op::Verum | Op::Falsum | Op::Unknown => 0,
        }
    }
}
