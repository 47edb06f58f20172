// A distinct application: its own variable node, then a choice for each earlier application of its symbol, latest first.
ghost use Rattle.std.specs.Prelude.{◌≡◌, ◌+◌, ◌<◌, ◌≤◌, length};
ghost use Rattle.definitions.specs.Lists.{keep};
ghost use Rattle.definitions.specs.Problem.Node.{node};
ghost use Rattle.definitions.specs.Problem.Check.{symbols_of, nodes_of};
ghost use Rattle.definitions.specs.Elimination.{images_of, choice_op, choices, same_symbol};
ghost use Rattle.problem.specs.Lays.{Lays};
ghost use Rattle.problem.specs.Ops.{byte_of};
ghost use Rattle.elimination.specs.State.{state_at, LaidAt, StepLays, Taking, NewAt};

use crate::conditions::lay_choice;
use crate::laid::{Application, Laid};
use problem::head::Problem;
use problem::ops::Op;
use problem::put::{Node, lay};

// The op of a choice: between terms for a function, and between formulas for a predicate.
// No `Op` parameter, here and in `next` and `count_one`: the definitions speak of the number, and an `Op` loses it at `Unknown`.
fn choice_op(op: u8) -> Op
    ensures { byte_of result ≡ choice_op op }
{
    if op == Op::Apply.byte() {
        Op::Choose
    } else {
        Op::Select
    }
}

// The contracts below ask for `Taking` and `NewAt`, which tie the problem, a node, what is at hand and the buffer: none of these
// holds the others, so the facts have no struct to stand in.
impl Laid {
    // The choices for node k, after its own variable node: the applications are looked at from the latest on.
    #[tactic(auto, using(crate::proofs::Applying::own_fits))]
    fn lay_choices(&self, problem: &Problem<'_>, k: usize, work: &mut [u8]) -> usize
        requires { Taking problem.now k self.now work.old × NewAt problem.now k }
        ensures { Lays work.old work.new (self.now.nodes + 1) result (λ t. choices (node (nodes_of problem.now) k).op (images_of (symbols_of problem.now) (state_at problem.now k).images) t (images_of (symbols_of problem.now) (state_at problem.now k).images (node (nodes_of problem.now) k)) (keep (same_symbol (node (nodes_of problem.now) k)) (state_at problem.now k).apps)) × (self.now.nodes < result) × (result ≤ 2632) }
    {
        let node = problem.node(k);
        let choice = choice_op(node.op);
        let arity = problem.arity(usize::from(node.symbol));
        let xs = self.images_of(problem, k);
        let mut at = self.nodes + 1;
        for i in (0..self.count).rev() {
            let earlier = self.applications[i];
            let q = usize::from(earlier.node);
            if problem.same_symbol(q, k) {
                let ys = self.images_of(problem, q);
                let own = earlier.own;
                at = lay_choice(work, at, choice, &xs[..arity], &ys[..arity], own);
            }
        }
        at
    }

    // All that is laid for node k: its own variable node, of the next number, and the choices.
    #[tactic(auto, using(crate::proofs::Applying::own_fits, crate::proofs::Applying::number_fits))]
    fn lay_application(&self, problem: &Problem<'_>, k: usize, work: &mut [u8]) -> usize
        requires { Taking problem.now k self.now work.old × NewAt problem.now k }
        ensures lays { StepLays problem.now k work.old work.new }
        ensures reached { result ≡ length (state_at problem.now (k + 1)).out }
        ensures some { 1 ≤ result }
    {
        let op = problem.node(k).op;
        let own = Node {
            op,
            symbol: self.next(op) as u8,
            a: 0,
            b: 0,
            c: 0,
        };
        lay(work, self.nodes, own);
        self.lay_choices(problem, k, work)
    }

    // One distinct application more.
    #[tactic(auto, using(crate::proofs::Applying::own_fits, crate::proofs::Applying::place_there, crate::proofs::Applying::next_fits))]
    pub fn add_application(&mut self, problem: &Problem<'_>, k: usize, work: &mut [u8])
        requires { Taking problem.now k self.old work.old × NewAt problem.now k }
        ensures noted { LaidAt problem.now (k + 1) self.new }
        ensures lays { StepLays problem.now k work.old work.new }
    {
        let at = self.lay_application(problem, k, work);
        self.applications[self.count] = Application {
            node: k as u8,
            own: self.nodes as u16,
        };
        self.images[k] = (at - 1) as u16;
        self.nodes = at;
        self.count_one(problem.node(k).op);
    }
}
