// Both sides of each limit: the counts of symbols and nodes (4), of distinct applications (9 and 10), the work buffer (11), and
// the product (13).
ghost use Rattle.std.specs.Prelude.{◌<◌, ◌≤◌};

use crate::answers::check;
use crate::draft::Draft;
use crate::{answers, rows};
use std::io;

pub fn counts(rt: &impl Print) -> io::Result<()> {
    let symbols = Draft::new().run(0..32, |draft, _| draft.symbol(0));
    let nodes = Draft::new().run(0..255, |draft, _| draft.yes());
    for (name, draft) in [
        ("32 symbols", symbols.yes()),
        ("33 symbols", symbols.symbol(0).yes()),
        ("no node", Draft::new()),
        ("256 nodes", nodes.yes()),
        ("257 nodes", nodes.yes().yes()),
    ] {
        check(rt, name, &draft)?;
    }
    Ok(())
}

pub fn applications(rt: &impl Print) -> io::Result<()> {
    for (name, draft) in [
        ("24 variables", variables(24)),
        (
            "24 variables and a repeat",
            variables(24)
                .variable(0)
                .equation(0, 71)
                .disjunction(70, 72),
        ),
        ("25 variables", variables(25)),
        ("16 predicates", predicates(16)),
        (
            "16 predicates and a repeat",
            predicates(16).truth_variable(0).disjunction(30, 31),
        ),
        ("17 predicates", predicates(17)),
        ("25 variables and 17 predicates", too_many()),
        ("largest table", largest()),
    ] {
        measure(rt, name, &draft)?;
    }
    Ok(())
}

pub fn work_buffer(rt: &impl Print) -> io::Result<()> {
    let mut short = [255; 21055];
    let mut whole = [255; 21056];
    lend(rt, "row 2 in 21055 bytes", &rows::row_2(), &mut short)?;
    lend(rt, "row 2 in 21056 bytes", &rows::row_2(), &mut whole)?;
    for (name, draft) in [
        ("17 predicates in 21055 bytes", predicates(17)),
        ("20 linked variables in 21055 bytes", linked(20, 0)),
    ] {
        lend(rt, name, &draft, &mut short)?;
    }
    Ok(())
}

// 19! is below 10^18, and so is eight times that.
pub fn products(rt: &impl Print) -> io::Result<()> {
    for (name, draft) in [
        ("19 linked variables", linked(19, 0)),
        ("20 linked variables", linked(20, 0)),
        ("24 linked variables", linked(24, 0)),
        ("19 linked variables and 3 predicates", linked(19, 3)),
        ("19 linked variables and 4 predicates", linked(19, 4)),
    ] {
        measure(rt, name, &draft)?;
    }
    Ok(())
}

pub fn measure(rt: &impl Print, name: &str, draft: &Draft) -> io::Result<()> {
    let mut work = [255; 21056];
    check(rt, name, draft)?;
    lend(rt, name, draft, &mut work)
}

fn lend(rt: &impl Print, name: &str, draft: &Draft, work: &mut [u8]) -> io::Result<()> {
    answers::eliminate(rt, name, draft, work)?;
    answers::ranges(rt, name, draft, work)
}

// The or of equations, one for each variable with itself.
pub fn variables(count: u8) -> Draft
    requires { (0 < count) × (count ≤ 32) }
{
    Draft::new()
        .run(0..count, |draft, _| draft.symbol(0))
        .run(0..count, Draft::variable)
        .run(0..count, Draft::same)
        .run(count..2 * count - 1, Draft::or)
}

// The or of truth variables.
fn predicates(count: u8) -> Draft
    requires { 0 < count }
{
    Draft::new()
        .run(0..count, |draft, _| draft.symbol(16))
        .run(0..count, Draft::truth_variable)
        .run(0..count - 1, Draft::or)
}

// The or of equations, one for each variable with the next, and of truth variables.
pub fn linked(count: u8, truths: u8) -> Draft
    requires { (0 < count) × (count ≤ 24) × (truths ≤ 16) }
{
    Draft::new()
        .run(0..count, |draft, _| draft.symbol(0))
        .run(0..truths, |draft, _| draft.symbol(16))
        .run(0..count, Draft::variable)
        .run(0..count - 1, Draft::link)
        .run(count..count + truths, Draft::truth_variable)
        .run(count..2 * count + truths - 2, Draft::or)
}

// 25 variables: a predicate of 17 of them, and an equation of each of the others with itself.
fn too_many() -> Draft {
    Draft::new()
        .run(0..25, |draft, _| draft.symbol(0))
        .symbol(17)
        .run(0..25, Draft::variable)
        .run(0..17, |draft, x| draft.tested(25, [x, 0, 0]))
        .run(17..25, Draft::same)
        .run(25..49, Draft::or)
}

// As many function-free nodes as a root can reach. There are 256 problem nodes: x; 23 applications of one function of three
// arguments, the first of x and each further one of that before; 16 of one predicate of three, the last of which reaches all of
// the functions; and 216 ors. The i-th application of its symbol lays its own variable, and for each of the i - 1 before it a
// condition of 5 nodes and a choice: 1 + 6 (i - 1) nodes. So x lays 1, the functions 23 + 6 * 253 = 1541, the predicates
// 16 + 6 * 120 = 736, and the ors 216: in all 2494.
fn largest() -> Draft {
    Draft::new()
        .symbol(0)
        .symbol(3)
        .symbol(19)
        .variable(0)
        .run(0..23, |draft, x| draft.applied(1, [x, 0, 0]))
        .run(8..24, |draft, x| draft.tested(2, [x, 0, 0]))
        .run(24..240, Draft::or)
}
