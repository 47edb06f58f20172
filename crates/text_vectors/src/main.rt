// Texts worked by hand (docs/TEXT.md), a line for each answer. The lines are compared with the file stdout, which is worked out
// from the texts and not from this program.
#![tactic(auto)]

use decision::decide;
use print::{Decided, Hexadecimal, Refused, first};
use problem::head::last_node;
use std::io;
use text::read;

// What is read, and the problem that it makes. Returns the problem's length, where there is one.
fn reads(
    rt: &impl Print,
    name: &str,
    words: &[u8],
    problem: &mut [u8],
) -> io::Result<Option<usize>> {
    match read(words, problem) {
        Ok(written) => {
            println!(rt; "read {name}: written {written}")?;
            println!(rt; "problem {name}:{}", Hexadecimal(first(problem, written)))?;
            Ok(Some(written))
        }
        Err(refusal) => {
            println!(rt; "read {name}: {}", Refused(refusal))?;
            Ok(None)
        }
    }
}

// And what is decided of the problem.
fn decides(rt: &impl Print, name: &str, words: &[u8]) -> io::Result<()> {
    let mut problem = [0; 2088];
    let mut work = [0; 21056];
    let mut witness = [0; 206];
    let written = reads(rt, name, words, &mut problem)?;
    let asked = first(&problem, written.unwrap_or(0));
    match decide(1000, last_node(asked), asked, &mut work, &mut witness) {
        Ok(decision) => println!(rt; "decide {name}: {}", Decided(decision)),
        Err(refusal) => println!(rt; "decide {name}: {}", Refused(refusal)),
    }
}

fn shows(rt: &impl Print, name: &str, words: &[u8]) -> io::Result<()> {
    reads(rt, name, words, &mut [0; 2088])?;
    Ok(())
}

// A text that declares and asserts nothing.
const EMPTY: &[u8] = b"(set-logic QF_UF)(declare-sort U 0)(check-sat)";

const DECIDED: [(&str, &[u8]); 4] = [
    ("text 1", EMPTY),
    (
        "text 2",
        b"(set-logic QF_UF)(declare-sort U 0)(declare-fun x () U)(declare-fun y () U)(declare-fun f (U) U)(assert (= x y))(assert (not (= (f x) (f y))))(check-sat)",
    ),
    (
        "text 3",
        b"(set-logic QF_UF)(declare-sort U 0)(declare-fun x()U)(declare-fun y()U)(declare-fun p()Bool)(declare-fun q()Bool)(assert (=> p q (= x y x)))(check-sat)",
    ),
    (
        "text 4",
        b"(set-logic QF_UF)(declare-sort U 0)(declare-fun p()Bool)(declare-fun q()Bool)(declare-fun r()Bool)(assert p)(assert (or p q r))(assert (not p))(check-sat)",
    ),
];

// In bars, refused, too deep, and of 33 symbols.
const SHOWN: [(&str, &[u8]); 8] = [
    (
        "text 5",
        b";note\n(set-logic |QF_UF|)(declare-sort |a b| 0)(declare-fun |let|()|a b|)(declare-fun y()|a b|)(declare-fun p()|Bool|)(assert(|and|p|true|(=(ite |p||let|y)|y|)))(check-sat);end",
    ),
    (
        "text 6",
        b"(set-logic QF_UF)(declare-sort U 0)(declare-fun f (U U U U) U)(check-sat)",
    ),
    (
        "text 7",
        b"(set-logic QF_UF)(declare-sort U 0)(declare-fun p () Bool)(assert (and p))(check-sat)",
    ),
    (
        "text 8",
        b"(set-logic QF_UF)(declare-sort U 0)(declare-fun x () U)(declare-fun p () Bool)(assert (= (ite p x p) x))(check-sat)",
    ),
    (
        "text 9",
        b"(set-logic QF_UF)(declare-sort U 0)(assert true)(check-sat)(exit)",
    ),
    (
        "text 11",
        b"(set-logic QF_UF)(declare-sort U 0)(declare-fun p () Bool)(assert p) ; no more\n",
    ),
    (
        "text 10",
        b"(set-logic QF_UF)(declare-sort U 0)(declare-fun p () Bool)(assert (not (not (not (not (not (not (not (not (not (not (not (not (not (not (not (not (not (not (not (not (not (not (not (not (not (not (not (not (not (not (not (not (not (not (not (not (not (not (not (not (not (not (not (not (not (not (not (not (not (not (not (not (not (not (not (not (not (not (not (not (not (not (not (not (not ",
    ),
    (
        "text 12",
        b"(set-logic QF_UF)(declare-sort U 0)(declare-fun c0()U)(declare-fun c1()U)(declare-fun c2()U)(declare-fun c3()U)(declare-fun c4()U)(declare-fun c5()U)(declare-fun c6()U)(declare-fun c7()U)(declare-fun c8()U)(declare-fun c9()U)(declare-fun c10()U)(declare-fun c11()U)(declare-fun c12()U)(declare-fun c13()U)(declare-fun c14()U)(declare-fun c15()U)(declare-fun c16()U)(declare-fun c17()U)(declare-fun c18()U)(declare-fun c19()U)(declare-fun c20()U)(declare-fun c21()U)(declare-fun c22()U)(declare-fun c23()U)(declare-fun c24()U)(declare-fun c25()U)(declare-fun c26()U)(declare-fun c27()U)(declare-fun c28()U)(declare-fun c29()U)(declare-fun c30()U)(declare-fun c31()U)(declare-fun c32()U)(check-sat)",
    ),
];

fn texts_decided(rt: &impl Print) -> io::Result<()> {
    for (name, words) in DECIDED {
        decides(rt, name, words)?;
    }
    Ok(())
}

fn texts_shown(rt: &impl Print) -> io::Result<()> {
    for (name, words) in SHOWN {
        shows(rt, name, words)?;
    }
    Ok(())
}

fn main(rt: HostRuntime) -> io::Result<()> {
    texts_decided(&rt)?;
    texts_shown(&rt)?;
    reads(&rt, "text 1, a byte short", EMPTY, &mut [0; 2087])?;
    Ok(())
}
