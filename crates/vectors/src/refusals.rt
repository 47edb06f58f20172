// Refusals 1 to 7 and 16, and beside them problems that are just taken. A case is named by what is wrong, or by what is just right.
use crate::answers::check;
use crate::draft::Draft;
use crate::limits::variables;
use crate::rows::row_2;
use problem::ops::Op;
use std::io;

// What check answers of each case.
fn checks(rt: &impl Print, cases: &[(&str, Draft)]) -> io::Result<()> {
    for (name, draft) in cases {
        check(rt, name, draft)?;
    }
    Ok(())
}

// 1 to 3 and 5: the length, the letters, the version.
pub fn header(rt: &impl Print) -> io::Result<()> {
    let row = row_2();
    checks(
        rt,
        &[
            ("no byte", row.cut(0)),
            ("7 bytes", row.cut(7)),
            ("8 bytes", row.cut(8)),
            ("33 bytes of 34", row.cut(33)),
            ("35 bytes of 34", row.then(&[0])),
            ("letter 0", row.with(0, b'F')),
            ("letter 1", row.with(1, b'q')),
            ("letter 2", row.with(2, b'W')),
            ("version 0", row.with(3, 0)),
            ("version 2", row.with(3, 2)),
            ("version 257", row.with(4, 1)),
        ],
    )
}

// 6: a symbol byte is 0 to 3 or 16 to 19.
pub fn symbols(rt: &impl Print) -> io::Result<()> {
    let none = Draft::new();
    checks(
        rt,
        &[
            ("symbol byte 3", none.symbol(3).yes()),
            ("symbol byte 4", none.symbol(4).yes()),
            ("symbol byte 15", none.symbol(15).yes()),
            ("symbol byte 16", none.symbol(16).yes()),
            ("symbol byte 19", none.symbol(19).yes()),
            ("symbol byte 20", none.symbol(20).yes()),
            ("symbol byte 255", none.symbol(255).yes()),
            ("two bad symbols", none.symbol(0).symbol(4).symbol(4).yes()),
            ("bad symbol and node", none.symbol(4).negation(0)),
        ],
    )
}

// x, f of one argument and q of one, and then the nodes x and true.
fn start() -> Draft {
    Draft::new()
        .symbol(0)
        .symbol(1)
        .symbol(17)
        .variable(0)
        .yes()
}

// One more node after those.
fn third(rt: &impl Print, cases: &[(&str, Op, u8, [u8; 3])]) -> io::Result<()> {
    for (name, op, symbol, operands) in cases {
        check(rt, name, &start().node(*op, *symbol, *operands))?;
    }
    Ok(())
}

// 7: ops, symbols and operands.
pub fn layout(rt: &impl Print) -> io::Result<()> {
    third(
        rt,
        &[
            ("op 9", Op::Select, 0, [1, 1, 1]),
            ("op 10", Op::Unknown, 0, [1, 1, 1]),
            ("function symbol 3 of 3", Op::Apply, 3, [0, 0, 0]),
            ("predicate symbol 3 of 3", Op::Test, 3, [0, 0, 0]),
            ("function for predicate", Op::Test, 1, [0, 0, 0]),
            ("predicate for function", Op::Apply, 2, [0, 0, 0]),
            ("operand its own number", Op::Negate, 0, [2, 0, 0]),
            ("operand a later number", Op::Negate, 0, [3, 0, 0]),
        ],
    )?;
    checks(
        rt,
        &[
            ("operand 257", start().negation(1).with(30, 1)),
            ("bad first node", Draft::new().negation(0)),
            ("two bad nodes", start().negation(0).negation(0)),
        ],
    )
}

// 7: what an op does not use is 0.
pub fn unused(rt: &impl Print) -> io::Result<()> {
    third(
        rt,
        &[
            ("variable with an operand", Op::Apply, 0, [1, 0, 0]),
            ("function with two operands", Op::Apply, 1, [0, 1, 0]),
            ("predicate with two operands", Op::Test, 2, [0, 1, 0]),
            ("equation with three operands", Op::Equal, 0, [0, 0, 1]),
            ("negation with two operands", Op::Negate, 0, [1, 1, 0]),
            ("conjunction with three operands", Op::Both, 0, [1, 1, 1]),
            ("disjunction with three operands", Op::Either, 0, [1, 1, 1]),
            ("true with an operand", Op::Verum, 0, [0, 0, 1]),
            ("false with an operand", Op::Falsum, 0, [1, 0, 0]),
            ("choice with a symbol", Op::Choose, 1, [1, 0, 0]),
            ("equation with a symbol", Op::Equal, 1, [0, 0, 0]),
            ("true with a symbol", Op::Verum, 1, [0, 0, 0]),
        ],
    )
}

// 7: the sorts of the operands.
pub fn sorts(rt: &impl Print) -> io::Result<()> {
    third(
        rt,
        &[
            ("function of a formula", Op::Apply, 1, [1, 0, 0]),
            ("predicate of a formula", Op::Test, 2, [1, 0, 0]),
            ("equation with a formula", Op::Equal, 0, [0, 1, 0]),
            ("negation of a term", Op::Negate, 0, [0, 0, 0]),
            ("conjunction with a term", Op::Both, 0, [1, 0, 0]),
            ("disjunction with a term", Op::Either, 0, [0, 1, 0]),
            ("choice by a term", Op::Choose, 0, [0, 0, 0]),
            ("choice of terms with a formula", Op::Choose, 0, [1, 0, 1]),
            ("choice of formulas with a term", Op::Select, 0, [1, 0, 1]),
        ],
    )
}

// 16: the node asked is a formula. It comes after 7 and before 9.
pub fn asked(rt: &impl Print) -> io::Result<()> {
    third(
        rt,
        &[
            ("variable asked", Op::Apply, 0, [0, 0, 0]),
            ("choice asked", Op::Choose, 0, [1, 0, 0]),
        ],
    )?;
    let bad = start().negation(0);
    checks(
        rt,
        &[
            ("no node asked", start().asking(2)),
            ("bad node and term asked", bad.variable(0)),
            ("bad node and no node asked", bad.asking(3)),
            ("bad node past the root", bad.asking(1)),
            (
                "choice by 25 variables asked",
                variables(25).choice(73, 0, 0),
            ),
        ],
    )
}
