// Document 01's rows, and the further examples. Buffers are lent full of other bytes, so that every byte of a table or a witness
// is one that was written.
use crate::draft::Draft;
use crate::{answers, budgets, examples, rows};
use std::io;

pub fn rows(rt: &impl Print) -> io::Result<()> {
    for (name, draft) in [
        ("row 1", rows::row_1()),
        ("row 2", rows::row_2()),
        ("row 3", rows::row_3()),
        ("row 4", rows::row_4()),
        ("row 5", rows::row_5()),
        ("row 6", rows::row_6()),
        ("row 7", rows::row_7()),
        ("row 8", rows::row_8()),
        ("row 9", rows::row_9()),
        ("row 10", rows::row_10()),
        ("row 11", rows::row_11()),
        ("row 12", rows::row_12()),
    ] {
        answers::problem(rt, name, &draft)?;
        survey(rt, name, &draft)?;
        budgets::small(rt, name, &draft)?;
        budgets::largest(rt, name, &draft)?;
    }
    Ok(())
}

pub fn examples(rt: &impl Print) -> io::Result<()> {
    for (name, draft) in [
        ("004", examples::ackermann()),
        ("004 power", examples::power()),
        ("repeat", examples::repeat()),
        ("three arguments", examples::three_arguments()),
        ("predicates", examples::predicates()),
        ("longest witness", examples::longest_witness()),
    ] {
        answers::problem(rt, name, &draft)?;
        operations(rt, name, &draft)?;
    }
    Ok(())
}

// What each operation answers, decide with the largest budget, and the table and the witness where there is one.
pub fn operations(rt: &impl Print, name: &str, draft: &Draft) -> io::Result<()> {
    survey(rt, name, draft)?;
    budgets::largest(rt, name, draft)
}

fn survey(rt: &impl Print, name: &str, draft: &Draft) -> io::Result<()> {
    let mut work = [255; 21056];
    answers::check(rt, name, draft)?;
    if let Some(nodes) = answers::eliminate(rt, name, draft, &mut work)? {
        answers::table(rt, name, &work, nodes)?;
    }
    answers::ranges(rt, name, draft, &mut work)
}
