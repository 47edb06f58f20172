// A node is named (02, E2). What it does not reach is as if it were not there: appended nodes, equal nodes, variables and links.
use crate::draft::Draft;
use crate::limits::{linked, measure, variables};
use crate::worked::operations;
use std::io;

// The voice group's table: x = y, with the symbols x, y, z and f of one argument.
fn voice() -> Draft {
    Draft::new()
        .symbol(0)
        .symbol(0)
        .symbol(0)
        .symbol(1)
        .variable(0)
        .variable(1)
        .equation(0, 1)
}

// The effects group appends f(z) = f(x).
fn both() -> Draft {
    voice()
        .variable(2)
        .applied(3, [3, 0, 0])
        .applied(3, [0, 0, 0])
        .equation(4, 5)
}

pub fn two_departments(rt: &impl Print) -> io::Result<()> {
    for (name, draft) in [
        ("one department root 2", voice()),
        ("two departments root 2", both().asking(2)),
        ("two departments root 6", both().asking(6)),
    ] {
        operations(rt, name, &draft)?;
    }
    Ok(())
}

// 16: a term, or no node at all, however large the number is.
pub fn no_formula(rt: &impl Print) -> io::Result<()> {
    operations(rt, "one department root 6", &voice().asking(6))?;
    for (name, root) in [
        ("two departments root 0", 0),
        ("two departments root 1", 1),
        ("two departments root 3", 3),
        ("two departments root 4", 4),
        ("two departments root 5", 5),
        ("two departments root 7", 7),
        ("two departments root 4294967295", u32::MAX as usize),
        ("two departments root 18446744073709551615", usize::MAX),
    ] {
        operations(rt, name, &both().asking(root))?;
    }
    Ok(())
}

// p, q, not q
fn not_q() -> Draft {
    Draft::new()
        .symbol(16)
        .symbol(16)
        .truth_variable(0)
        .truth_variable(1)
        .negation(1)
}

// x, x, and the second x equal to itself
fn second_x() -> Draft {
    Draft::new()
        .symbol(0)
        .variable(0)
        .variable(0)
        .equation(1, 1)
}

pub fn unreached(rt: &impl Print) -> io::Result<()> {
    operations(rt, "p, q, not q root 2", &not_q())?;
    operations(rt, "x, x, 1 = 1 root 2", &second_x())
}

// Nodes 64 to 94 are the ors of 32 equations: node 64 reaches two of these, and each or one more than that before, so that node
// 86 reaches 24. The first equation of the chain is node 20, and its last node 56.
pub fn limits(rt: &impl Print) -> io::Result<()> {
    let equations = variables(32);
    let chain = linked(20, 0);
    measure(rt, "32 variables root 86", &equations.asking(86))?;
    measure(rt, "32 variables root 87", &equations.asking(87))?;
    operations(rt, "chain of 20 root 20", &chain.asking(20))?;
    measure(rt, "chain of 20 root 56", &chain)
}
