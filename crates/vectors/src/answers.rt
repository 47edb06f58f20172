// One line for each operation on a problem: what it answers, or what it wrote.
use crate::draft::Draft;
use definitions::Verdict;
use print::{Decided, Decimal, Hexadecimal, Refused, first};
use std::io;

pub fn problem(rt: &impl Print, name: &str, draft: &Draft) -> io::Result<()> {
    println!(rt; "problem {name}:{}", Hexadecimal(draft.bytes()))
}

pub fn check(rt: &impl Print, name: &str, draft: &Draft) -> io::Result<()> {
    match asked::check(draft.root(), draft.bytes()) {
        Ok(counts) => println!(rt;
            "check {name}: functions {} predicates {}",
            counts.functions, counts.predicates
        ),
        Err(refusal) => { println!(rt; "check {name}: {}", Refused(refusal)) }
    }
}

// Returns the count of nodes laid, where there is a table.
pub fn eliminate(
    rt: &impl Print,
    name: &str,
    draft: &Draft,
    work: &mut [u8],
) -> io::Result<Option<usize>> {
    match elimination::eliminate(draft.root(), draft.bytes(), work) {
        Ok(table) => {
            println!(rt;
                "eliminate {name}: nodes {} root {}",
                table.nodes, table.root
            )?;
            Ok(Some(table.nodes))
        }
        Err(refusal) => {
            println!(rt; "eliminate {name}: {}", Refused(refusal))?;
            Ok(None)
        }
    }
}

// The function-free table.
pub fn table(rt: &impl Print, name: &str, work: &[u8], nodes: usize) -> io::Result<()> {
    let bytes = Hexadecimal(first(work, nodes.saturating_mul(8)));
    println!(rt; "table {name}:{bytes}")
}

pub fn ranges(rt: &impl Print, name: &str, draft: &Draft, work: &mut [u8]) -> io::Result<()> {
    match ranges::ranges(draft.root(), draft.bytes(), work) {
        Ok(all) => println!(rt;
            "ranges {name}: tops{} truths {} product {}",
            Decimal(&all.tops),
            all.truths,
            all.product
        ),
        Err(refusal) => { println!(rt; "ranges {name}: {}", Refused(refusal)) }
    }
}

fn written(verdict: Verdict) -> Option<usize> {
    match verdict {
        Verdict::Falsified { written } => Some(written),
        _ => None,
    }
}

// Returns the length of the witness, where there is one.
pub fn decide(
    rt: &impl Print,
    name: &str,
    draft: &Draft,
    budget: u64,
    work: &mut [u8],
    witness: &mut [u8],
) -> io::Result<Option<usize>> {
    match decision::decide(budget, draft.root(), draft.bytes(), work, witness) {
        Ok(decision) => {
            let written = written(decision.verdict);
            println!(rt;
                "decide {name} budget {budget}: {} witness {}",
                Decided(decision),
                written.unwrap_or(0)
            )?;
            Ok(written)
        }
        Err(refusal) => {
            println!(rt; "decide {name} budget {budget}: {}", Refused(refusal))?;
            Ok(None)
        }
    }
}

pub fn witness(rt: &impl Print, name: &str, rows: &[u8], written: usize) -> io::Result<()> {
    println!(rt; "witness {name}:{}", Hexadecimal(first(rows, written)))
}
