// solve: the verdict on a text in the subset of SMT-LIB that is read (02, E1, 'The host and the program'). Its first argument names
// the file, and without one the text comes from standard input; its second is the budget. What each line is has its contract
// in the crate solve_lines: no contract can speak of the bytes read and written here. A write that fails ends the run; a read
// that fails counts as the end of the text.
#![tactic(auto)]

use decision::decide;
use definitions::Verdict;
use lines::line::Line;
use problem::head::last_node;
use reading::fill;
use solve_lines::budget::budget_in;
use solve_lines::errors::error_line;
use solve_lines::names::name_at;
use solve_lines::rows::{Row, byte_at, row_at, row_end, row_start};
use solve_lines::{answer_lines, budget_line, too_long_line};
use std::env::{Env, FillError};
use std::io::Read;
use std::rt::Files;
use std::{fs, io, str};
use text::read;

fn write_line(rt: &impl Print, line: &Line<256>) -> io::Result<()> {
    rt.write_all(line.as_bytes())
}

// The line of a row: the name comes straight from the text.
fn write_row(rt: &impl Print, text: &[u8], problem: &[u8], row: Row) -> io::Result<()> {
    let symbol = usize::from(row.symbol);
    let name = name_at(text, symbol);
    let byte = byte_at(problem, 8 + symbol);
    write_line(rt, &row_start(name.barred))?;
    rt.write_all(name.bytes)?;
    write_line(rt, &row_end(name.barred, byte, row))
}

// The tables that a witness lists.
fn write_tables(rt: &impl Print, text: &[u8], problem: &[u8], witness: &[u8]) -> io::Result<()> {
    for k in 0..byte_at(witness, 5) {
        write_row(rt, text, problem, row_at(witness, k))?;
    }
    Ok(())
}

// Decides the last node of the problem of a text.
fn answer(rt: &impl Print, budget: u64, text: &[u8], problem: &[u8]) -> io::Result<()> {
    let mut work = [0u8; 21056];
    let mut witness = [0u8; 206];
    let answer = decide(budget, last_node(problem), problem, &mut work, &mut witness);
    write_line(rt, &answer_lines(text, answer))?;
    if let Ok(Verdict::Falsified { .. }) = answer.map(|decision| decision.verdict) {
        write_tables(rt, text, problem, &witness)?;
    }
    Ok(())
}

// Reads a text, and decides its problem.
fn solve_text(rt: &impl Print, budget: u64, text: &[u8]) -> io::Result<()> {
    let mut problem = [0u8; 2088];
    match read(text, &mut problem) {
        Ok(written) => answer(rt, budget, text, &problem[..written]),
        Err(refusal) => write_line(rt, &error_line(text, refusal)),
    }
}

// Room for 1 MiB, and for one byte more, which tells a longer text. A function of its own, so that no proof writes it out.
fn large_room() -> [u8; 1048577] {
    [0; 1048577]
}

// A text of up to 1 MiB.
fn solve_from<R: Read>(rt: &impl Print, budget: u64, input: &mut R) -> io::Result<()> {
    let mut room = large_room();
    let got = fill(input, &mut room);
    if got == 1048577 {
        return write_line(rt, &too_long_line());
    }
    solve_text(rt, budget, &room[..got])
}

// The second argument.
fn budget(rt: &impl Env) -> Option<u64> {
    let mut argument = [0u8; 32];
    match rt.arg(2, &mut argument) {
        Ok(got) => budget_in(&argument[..got]),
        Err(FillError::TooLong) => None,
        Err(FillError::NotPresent) => budget_in(&[]),
    }
}

// The text of a file. One that cannot be opened is told on standard error.
fn solve_file(rt: &(impl Files + Print + Eprint), budget: u64, path: &[u8]) -> io::Result<()> {
    let Ok(name) = str::from_utf8(path) else {
        return rt.eprintln("the file's name is not UTF-8");
    };
    match fs::open(rt, name) {
        Ok(mut file) => solve_from(rt, budget, &mut file),
        Err(error) => eprintln!(rt; "{name}: {error}"),
    }
}

// The file that the first argument names, or standard input.
fn main(rt: HostRuntime) -> io::Result<()> {
    let Some(places) = budget(&rt) else {
        return write_line(&rt, &budget_line());
    };
    let mut path = [0u8; 4096];
    match rt.arg(1, &mut path) {
        Ok(got) => solve_file(&rt, places, &path[..got]),
        Err(FillError::TooLong) => solve_file(&rt, places, &[]),
        Err(FillError::NotPresent) => solve_from(&rt, places, &mut rt.reader()),
    }
}
