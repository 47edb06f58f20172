// Where a term stands and where its list goes on: the head after a bracket, and what follows in a list.
ghost use Rattle.terms.specs.Following.{HeadsAt, Follows};

use crate::declared::Signature;
use crate::heads::{Head, Place, head_of, ready, wants};
use crate::tokens::{Lexeme, Token};
use definitions::Refusal;
use problem::ops::Sort;

// The head that stands after a bracket.
pub fn head_at(signature: Signature<'_, '_>, lexeme: Lexeme<'_>, sort: Sort) -> Option<Head>
    ensures { let g = signature.entry in HeadsAt g.text.now g.shelf.now g.declared lexeme.entry sort result }
{
    let Lexeme::Symbol(name) = lexeme else {
        return None;
    };
    head_of(signature, name, sort, Place::Bracketed)
}

// What a token begins after so many arguments, counted up to three: an argument of a sort, or the list's end where there is none.
pub fn follows(head: Head, seen: usize, token: Token<'_>) -> Result<Option<Sort>, Refusal>
    ensures { Follows head seen token.entry result }
{
    let wrong = Err(Refusal::WrongToken(token.place));
    match token.lexeme {
        Lexeme::End => wrong,
        Lexeme::Closing if ready(head, seen) => Ok(None),
        Lexeme::Closing => wrong,
        _ => match wants(head, seen) {
            Some(sort) => Ok(Some(sort)),
            None => wrong,
        },
    }
}
