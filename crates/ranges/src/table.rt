// The function-free table: its bytes and its counts, and its nodes by number.
ghost use Rattle.std.specs.Prelude.{◌≡◌, ◌<◌};
ghost use Rattle.definitions.specs.Problem.Node.{node};
ghost use Rattle.problem.specs.Nodes.{node_read};
ghost use Rattle.ranges.specs.Table.{TableIn, table_in};

use crate::Shape;
use problem::put::Node;

// A well-formed table, from the first of the bytes on.
#[derive(Clone, Copy)]
pub struct FreeTable<'a> {
    pub bytes: &'a [u8],
    pub shape: Shape,
    ghost well_formed: { TableIn bytes.now shape },
}

impl<'a> FreeTable<'a> {
    // Node k.
    #[tactic(auto, using(crate::proofs::TableLaws::node_in))]
    pub fn node(self, k: usize) -> Node
        requires { k < self.shape.nodes }
        ensures { node_read result ≡ node (table_in self.entry.bytes.now self.entry.shape.nodes) k }
    {
        Node::read(self.bytes, 8 * k)
    }
}
