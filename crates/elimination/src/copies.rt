// Copies of nodes that are no applications.
ghost use Rattle.std.specs.Prelude.{◌≡◌, ◌+◌, false};
ghost use Rattle.definitions.specs.Problem.Node.{node};
ghost use Rattle.definitions.specs.Problem.Ops.{op_of, is_app};
ghost use Rattle.definitions.specs.Problem.Check.{nodes_of};
ghost use Rattle.elimination.specs.State.{LaidAt, StepLays, Taking};

use crate::laid::Laid;
use problem::head::Problem;
use problem::put::{Node, lay};

impl Laid {
    // One copy, operands replaced by their images.
    #[tactic(auto, using(crate::proofs::Copying::copy_fits))]
    pub fn copy_node(&mut self, problem: &Problem<'_>, k: usize, work: &mut [u8])
        requires { Taking problem.now k self.old work.old × (is_app (op_of (node (nodes_of problem.now) k).op) ≡ false) }
        ensures noted { LaidAt problem.now (k + 1) self.new }
        ensures lays { StepLays problem.now k work.old work.new }
    {
        let [a, b, c] = self.images_of(problem, k);
        let copy = Node {
            op: problem.node(k).op,
            symbol: 0,
            a,
            b,
            c,
        };
        lay(work, self.nodes, copy);
        self.images[k] = self.nodes as u16;
        self.nodes += 1;
    }
}
