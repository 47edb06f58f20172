// Repeats: the earliest node with the same op, symbol and operand numbers; and how many applications are distinct.
ghost use Rattle.std.specs.Prelude.{◌≡◌, ◌<◌, [], length, take};
ghost use Rattle.definitions.specs.Problem.Node.{node};
ghost use Rattle.definitions.specs.Problem.Check.{nodes_of, node_count, distinct};
ghost use Rattle.problem.specs.Ops.{byte_of};
ghost use Rattle.problem.specs.Stages.{found_of, one_symbol, first_same};

use crate::head::Problem;
use crate::ops::Op;

impl<'a> Problem<'a> {
    // Two nodes have the same op and symbol.
    pub fn same_symbol(&self, j: usize, k: usize) -> bool
        requires { (j < node_count self.now) × (k < node_count self.now) }
        ensures { result ≡ one_symbol (node (nodes_of self.now) j) (node (nodes_of self.now) k) }
    {
        let one = self.node(j);
        let other = self.node(k);
        one.op == other.op && one.symbol == other.symbol
    }

    // The number of the earliest node before node k that is the same.
    pub fn earliest(&self, k: usize) -> Option<usize>
        requires { k < node_count self.now }
        ensures { found_of result ≡ first_same (node (nodes_of self.now) k) (take k (nodes_of self.now)) }
    {
        let node = self.node(k);
        'scan: {
            for j in 0..k {
                if node == self.node(j) {
                    break 'scan Some(j);
                }
            }
            None
        }
    }

    // How many applications of an op are distinct: no earlier node is the same.
    pub fn distinct(&self, op: Op) -> usize
        ensures { result ≡ length (distinct (byte_of op) [] (nodes_of self.now)) }
    {
        // No `filter(..).count()`: the definition keeps the nodes before at hand, and a `count_by` over the range did not close.
        let mut count = 0;
        for k in 0..self.nodes {
            if self.node(k).op == op.byte() && self.earliest(k).is_none() {
                count += 1;
            }
        }
        count
    }
}
