// A declaration read again from the text: what stands after the word declare-fun (02, E1).
ghost use Rattle.std.specs.Prelude.{◌≡◌, ◌≤◌, length};
ghost use Rattle.definitions.specs.Text.Ascii.{ascii, same_bytes};
ghost use Rattle.definitions.specs.Text.Tokens.{word};
ghost use Rattle.problem.specs.Wanted.{sort_read};
ghost use Rattle.terms.specs.Lexing.{lexeme_read};
ghost use Rattle.terms.specs.Reading.{is_token};
ghost use Rattle.terms.specs.Declarations.{plain_at, first_name, name_in, DeclaresNext, SkipsTo, ArgumentsTo, result_in, ByteIs};

use crate::exact::{Due, exact};
use crate::ranks::byte_of;
use crate::tokens::{Lexeme, next};
use problem::ops::Sort;

// How many arguments are counted, up to three, and the offset behind the token that ends them.
#[derive(Clone, Copy)]
pub struct Counted {
    pub arity: usize,
    pub next: usize,
}

// The offset behind the first token.
fn skip(text: &[u8], at: usize) -> usize
    requires { at ≤ length text.now }
    ensures { SkipsTo text.now at result }
{
    let token = next(text, at);
    match token.lexeme {
        Lexeme::End => token.place,
        _ => token.next,
    }
}

// The name of a lexeme; the empty one if it has none.
pub fn name_of(lexeme: Lexeme<'_>) -> &[u8]
    ensures { result.now ≡ name_in lexeme.entry }
{
    match lexeme {
        Lexeme::Symbol(name) | Lexeme::Word(name) => name,
        _ => b"",
    }
}

// A lexeme is the word declare-fun.
#[tactic(auto, using(crate::proofs::SameLaws::names))]
pub fn is_declaring(lexeme: Lexeme<'_>) -> bool
    ensures { result ≡ is_token (word (ascii "declare-fun")) (lexeme_read lexeme.entry) }
{
    match lexeme {
        Lexeme::Word(name) => name == b"declare-fun".as_slice(),
        _ => false,
    }
}

// The offset behind the first word declare-fun.
pub fn declaration_from(text: &[u8], from: usize) -> Option<usize>
    requires { from ≤ length text.now }
    ensures { DeclaresNext text.now from result }
{
    let mut at = from;
    // No for: each token has its own width.
    loop {
        let token = next(text, at);
        match token.lexeme {
            Lexeme::End => return None,
            lexeme if is_declaring(lexeme) => return Some(token.next),
            _ => at = token.next,
        }
    }
}

// The declaration whose name stands at an offset is of this name.
#[tactic(auto, using(crate::proofs::SameLaws::names))]
pub fn declares(text: &[u8], at: usize, name: &[u8]) -> bool
    requires { at ≤ length text.now }
    ensures { result ≡ same_bytes name.now (first_name (plain_at text.now at)) }
{
    name == name_of(next(text, at).lexeme)
}

// The symbols that stand first, up to three, and what ends them.
fn arguments(text: &[u8], from: usize) -> Counted
    requires { from ≤ length text.now }
    ensures { ArgumentsTo text.now from result }
{
    let mut at = from;
    for arity in 0..3 {
        let token = next(text, at);
        let Lexeme::Symbol(_) = token.lexeme else {
            return Counted {
                arity,
                next: skip(text, at),
            };
        };
        at = token.next;
    }
    Counted {
        arity: 3,
        next: skip(text, at),
    }
}

// The result at an offset: the sort, or else Bool.
fn result_at(text: &[u8], at: usize, sort: &[u8]) -> Sort
    requires { at ≤ length text.now }
    ensures { sort_read result ≡ result_in sort.now (plain_at text.now at) }
{
    match exact(text, at, Due::Symbol(sort)) {
        Ok(_) => Sort::Term,
        Err(_) => Sort::Formula,
    }
}

// The byte of the symbol whose name stands at an offset.
pub fn byte_at(text: &[u8], at: usize, sort: &[u8]) -> usize
    requires { at ≤ length text.now }
    ensures { ByteIs sort.now (plain_at text.now at) result }
{
    let bracket = skip(text, at);
    let inner = skip(text, bracket);
    let counted = arguments(text, inner);
    byte_of(counted.arity, result_at(text, counted.next, sort))
}
