// The public operations on fixed problems, a line for each answer. The lines are compared with the file stdout, which is worked
// out from documents 01 and 02 and not from this program.
#![tactic(auto)]

mod answers;
mod budgets;
mod draft;
mod examples;
mod limits;
mod refusals;
mod roots;
mod rows;
mod worked;

use std::io;

fn main(rt: HostRuntime) -> io::Result<()> {
    worked::rows(&rt)?;
    worked::examples(&rt)?;
    refusals::header(&rt)?;
    refusals::symbols(&rt)?;
    refusals::layout(&rt)?;
    refusals::unused(&rt)?;
    refusals::sorts(&rt)?;
    refusals::asked(&rt)?;
    limits::counts(&rt)?;
    limits::applications(&rt)?;
    limits::work_buffer(&rt)?;
    limits::products(&rt)?;
    budgets::around_the_product(&rt)?;
    budgets::refusals(&rt)?;
    roots::two_departments(&rt)?;
    roots::no_formula(&rt)?;
    roots::unreached(&rt)?;
    roots::limits(&rt)
}
