// The function-free table: `eliminate` lays it into the work buffer. The problem's nodes are taken in order.
#![tactic(auto)]

ghost use Rattle.std.specs.Prelude.{◌+◌, ◌≤◌, length};
ghost use Rattle.definitions.specs.Operations.Promises.{EliminatePromise};
ghost use Rattle.theorems.proofs.Accepted.{Accepted};
ghost use Rattle.elimination.specs.State.{LaidAt, StepLays, Taking, AllLaid};

use crate::laid::Laid;
use asked::{asked_in, counts};
use definitions::{Refusal, Table};
use problem::head::Problem;
use problem::ops::Op;

mod applications;
mod conditions;
mod copies;
pub mod laid;

pub fn eliminate(root: usize, bytes: &[u8], work: &mut [u8]) -> Result<Table, Refusal>
    ensures { EliminatePromise root bytes.now work.old result work.new }
{
    let mut room = [0u8; 2088];
    let problem = asked_in(root, bytes, &mut room)?;
    counts(&problem)?;
    if work.len() < 21056 {
        return Err(Refusal::ShortWork);
    }
    let mut all = Laid::nothing();
    lay_table(&problem, work, &mut all);
    Ok(Table {
        nodes: all.nodes,
        root: usize::from(all.images[problem.nodes - 1]),
    })
}

// The whole table of an accepted problem. What the later stages need of it is left in what is lent, whatever stood there before. That
// the problem is accepted is asked of a `Problem` here and in three functions more: a type for it would need all its methods again.
pub fn lay_table(problem: &Problem<'_>, work: &mut [u8], all: &mut Laid)
    requires { Accepted problem.now × (21056 ≤ length work.old) }
    ensures { AllLaid problem.now work.old all.new work.new }
{
    all.clear();
    for k in 0..problem.nodes {
        all.take_node(problem, k, work);
    }
}

impl Laid {
    // Node k is taken: a copy, a repeat, whose image is that of the node repeated, or a distinct application.
    #[tactic(auto, using(crate::proofs::Taking::repeat_before, crate::proofs::Taking::repeat_noted, crate::proofs::Taking::repeat_lays))]
    fn take_node(&mut self, problem: &Problem<'_>, k: usize, work: &mut [u8])
        requires { Taking problem.now k self.old work.old }
        ensures noted { LaidAt problem.now (k + 1) self.new }
        ensures lays { StepLays problem.now k work.old work.new }
    {
        if !Op::from(problem.node(k).op).is_application() {
            return self.copy_node(problem, k, work);
        }
        match problem.earliest(k) {
            Some(j) => self.images[k] = self.images[j],
            None => self.add_application(problem, k, work),
        }
    }
}
