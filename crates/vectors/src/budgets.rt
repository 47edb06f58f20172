// What decide answers within a budget, and its refusals 11 to 13.
ghost use Rattle.std.specs.Prelude.{◌≤◌};

use crate::draft::Draft;
use crate::limits::linked;
use crate::rows::row_2;
use crate::{answers, examples};
use std::io;

// Budgets 0 to 5: the first false place and the product of a row are at most 4, so some are below, at and past each.
pub fn small(rt: &impl Print, name: &str, draft: &Draft) -> io::Result<()> {
    for budget in 0..=5 {
        decide::<21056, 206>(rt, name, draft, budget)?;
    }
    Ok(())
}

// The largest budget, and the witness.
pub fn largest(rt: &impl Print, name: &str, draft: &Draft) -> io::Result<()> {
    let mut work = [255; 21056];
    let mut witness = [255; 206];
    if let Some(written) = answers::decide(rt, name, draft, u64::MAX, &mut work, &mut witness)? {
        answers::witness(rt, name, &witness, written)?;
    }
    Ok(())
}

// Decides in buffers of these lengths.
fn decide<const WORK: usize, const WITNESS: usize>(
    rt: &impl Print,
    name: &str,
    draft: &Draft,
    budget: u64,
) -> io::Result<()>
    requires { (WORK ≤ 21056) × (WITNESS ≤ 206) }
{
    let mut work = [255; WORK];
    let mut witness = [255; WITNESS];
    answers::decide(rt, name, draft, budget, &mut work, &mut witness)?;
    Ok(())
}

pub fn around_the_product(rt: &impl Print) -> io::Result<()> {
    let ackermann = examples::ackermann();
    for budget in [0, 1, 35, 36, 37] {
        decide::<21056, 206>(rt, "004", &ackermann, budget)?;
    }
    decide::<21056, 206>(rt, "19 linked variables", &linked(19, 0), 1000)
}

// 11 to 13: the first in order is answered, whatever the budget.
pub fn refusals(rt: &impl Print) -> io::Result<()> {
    let row = row_2();
    decide::<21056, 205>(rt, "row 2 with 205 witness bytes", &row, 0)?;
    decide::<21056, 206>(rt, "row 2 with 206 witness bytes", &row, 0)?;
    decide::<21055, 206>(rt, "row 2 with 21055 work bytes", &row, 0)?;
    decide::<21055, 205>(rt, "row 2 with both short", &row, 0)?;
    decide::<21055, 205>(rt, "no byte with both short", &row.cut(0), 0)?;
    let linked = linked(20, 0);
    decide::<21056, 205>(rt, "20 linked variables with 205 witness bytes", &linked, 0)?;
    decide::<21056, 206>(rt, "20 linked variables with 206 witness bytes", &linked, 0)
}
