// The problem asked of a named root (02, E2): the nodes that the root reaches, alone. `ask` says whether that is the whole problem,
// as for most jobs, or a part of it, which `trim` lays in a lent buffer; `asked_in` does both, and every stage after these works on
// the problem asked. `check` answers the first of refusals 1 to 7, 16, 9 and 10 whose condition holds, or the counts of distinct
// applications.
#![tactic(auto)]

ghost use Rattle.definitions.specs.Operations.Promises.{CheckPromise};
ghost use Rattle.asked.specs.Asking.{AskedRead, AskRead, Counted};

use crate::reach::reach;
use crate::trim::trim;
use definitions::{Counts, Refusal};
use problem::head::Problem;
use problem::layout;
use problem::ops::Op;

pub mod reach;
pub mod trim;

// What a root comes to: the whole problem is asked, or a part of it.
#[derive(Drop)]
pub enum Asked<'a> {
    Whole(Problem<'a>),
    Part(Problem<'a>),
}

pub fn check(root: usize, bytes: &[u8]) -> Result<Counts, Refusal>
    ensures { CheckPromise root bytes.now result }
{
    let mut room = [0u8; 2088];
    let problem = asked_in(root, bytes, &mut room)?;
    counts(&problem)
}

// Conditions 1 to 7 over the whole table, then 16, and whether the root reaches every node.
pub fn ask<'a>(root: usize, bytes: &'a [u8]) -> Result<Asked<'a>, Refusal>
    ensures { AskedRead root bytes.now result }
{
    let problem = layout(bytes)?;
    if problem.nodes <= root || problem.is_term(root) {
        return Err(Refusal::WrongRoot);
    }
    let mut marks = [0u8; 256];
    if reach(root, &problem, &mut marks) == problem.nodes {
        return Ok(Asked::Whole(problem));
    }
    Ok(Asked::Part(problem))
}

// The problem asked, in the room if it is but a part.
pub fn asked_in<'a>(
    root: usize,
    bytes: &'a [u8],
    room: &'a mut [u8; 2088],
) -> Result<Problem<'a>, Refusal>
    ensures { AskRead root bytes.now result }
{
    match ask(root, bytes)? {
        Asked::Whole(problem) => Ok(problem),
        Asked::Part(problem) => Ok(trim(root, &problem, room)),
    }
}

// Conditions 9 and 10 on the problem asked, and its counts.
pub fn counts(asked: &Problem<'_>) -> Result<Counts, Refusal>
    ensures { Counted asked.now result }
{
    let functions = asked.distinct(Op::Apply);
    if 24 < functions {
        return Err(Refusal::ManyFunctions);
    }
    let predicates = asked.distinct(Op::Test);
    if 16 < predicates {
        return Err(Refusal::ManyPredicates);
    }
    Ok(Counts {
        functions,
        predicates,
    })
}
