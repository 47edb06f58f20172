// A declared symbol's rank: its arguments, at most three of the sort, and its result, the sort or Bool.
ghost use Rattle.std.specs.Prelude.{◌≡◌, ◌≤◌, length};
ghost use Rattle.definitions.specs.Text.Nodes.{byte_of};
ghost use Rattle.problem.specs.Wanted.{sort_read};
ghost use Rattle.terms.specs.Ranks.{SortIs, ReadsArity, ReadsResult};

use crate::declarations::Counted;
use crate::exact::{Due, WrongToken, exact, is_due};
use crate::tokens::{Lexeme, next};
use problem::ops::Sort;

// The sort of the result, and the offset behind it.
#[derive(Clone, Copy)]
pub struct Given {
    pub result: Sort,
    pub at: usize,
}

// A symbol's byte in the problem: its arity, and 16 more where its result is Bool.
pub fn byte_of(arity: usize, given: Sort) -> usize
    requires { arity ≤ 3 }
    ensures { result ≡ byte_of arity (sort_read given) }
{
    match given {
        Sort::Term => arity,
        Sort::Formula => 16 + arity,
    }
}

// The sort that a token names, if it names one.
#[tactic(auto, using(crate::proofs::SameLaws::names))]
fn sort_of(lexeme: Lexeme<'_>, sort: &[u8]) -> Option<Sort>
    ensures { SortIs lexeme.entry sort.now result }
{
    match lexeme {
        Lexeme::Symbol(name) if name == sort => Some(Sort::Term),
        Lexeme::Symbol(name) if name == b"Bool".as_slice() => Some(Sort::Formula),
        _ => None,
    }
}

// The arguments after their opening bracket; after three only the closing bracket will do.
pub fn read_arity(text: &[u8], from: usize, sort: &[u8]) -> Result<Counted, WrongToken>
    requires { from ≤ length text.now }
    ensures { ReadsArity text.now from sort.now result }
{
    let mut at = from;
    for arity in 0..3 {
        let token = next(text, at);
        if is_due(token.lexeme, Due::Closing) {
            return Ok(Counted {
                arity,
                next: token.next,
            });
        }
        if !is_due(token.lexeme, Due::Symbol(sort)) {
            return Err(WrongToken(token.place));
        }
        at = token.next;
    }
    let closed = exact(text, at, Due::Closing)?;
    Ok(Counted {
        arity: 3,
        next: closed,
    })
}

pub fn read_result(text: &[u8], at: usize, sort: &[u8]) -> Result<Given, WrongToken>
    requires { at ≤ length text.now }
    ensures { ReadsResult text.now at sort.now result }
{
    let token = next(text, at);
    match sort_of(token.lexeme, sort) {
        Some(result) => Ok(Given {
            result,
            at: token.next,
        }),
        None => Err(WrongToken(token.place)),
    }
}
