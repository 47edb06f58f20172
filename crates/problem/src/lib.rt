// Problem bytes: which tables are well formed. `layout` answers the problem, or the first of refusals 1 to 7 whose condition holds.
#![tactic(auto)]

ghost use Rattle.problem.specs.Stages.{LayoutRead};

use crate::head::Problem;
use definitions::Refusal;

pub mod bytes;
pub mod head;
pub mod nodes;
pub mod ops;
pub mod put;
pub mod repeats;
mod symbols;

#[tactic(auto, using(crate::proofs::Finding::position_failing), unfolding(definitions::specs::Problem::Check::layout_refusal))]
pub fn layout(bytes: &[u8]) -> Result<Problem<'_>, Refusal>
    ensures { LayoutRead bytes.now result }
{
    let problem = Problem::read_head(bytes)?;
    if let Some(k) = symbols::first_bad(problem.symbol_bytes()) {
        return Err(Refusal::BadSymbol(k));
    }
    if let Some(k) = problem.first_wrong() {
        return Err(Refusal::BadNode(k));
    }
    Ok(problem)
}
