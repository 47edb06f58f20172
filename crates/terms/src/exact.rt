// Tokens that must come.
ghost use Rattle.std.specs.Prelude.{◌≡◌, ◌≤◌, length};
ghost use Rattle.terms.specs.Lexing.{lexeme_read};
ghost use Rattle.terms.specs.Reading.{Exactly, due_read, is_token, StepWithin, Passes};

use crate::tokens::{Lexeme, next};
use definitions::Refusal;

// The place of a token that will not do, or of the end of the text.
#[derive(Clone, Copy, PartialEq, Eq)]
pub struct WrongToken(pub usize);

impl From<WrongToken> for Refusal {
    ghost use Rattle.definitions.specs.declared.Refusal.TheVariants.{WrongToken};

    ghost from_gives = { λ wrong refusal. refusal ≡ WrongToken wrong.0 };

    fn from(wrong: WrongToken) -> Refusal {
        Refusal::WrongToken(wrong.0)
    }
}

// A token that must come: a bracket, 0, or the reserved word or the symbol of a name.
#[derive(Clone, Copy)]
pub enum Due<'a> {
    Opening,
    Closing,
    Nought,
    Word(&'a [u8]),
    Symbol(&'a [u8]),
}

#[tactic(auto, using(crate::proofs::SameLaws::names))]
pub fn is_due(lexeme: Lexeme<'_>, due: Due<'_>) -> bool
    ensures { result ≡ is_token (due_read due.entry) (lexeme_read lexeme.entry) }
{
    match (due, lexeme) {
        (Due::Opening, Lexeme::Opening) => true,
        (Due::Closing, Lexeme::Closing) => true,
        (Due::Nought, Lexeme::Nought) => true,
        (Due::Word(name), Lexeme::Word(found)) => name == found,
        (Due::Symbol(name), Lexeme::Symbol(found)) => name == found,
        _ => false,
    }
}

// The offset behind a token that must come.
pub fn exact(text: &[u8], at: usize, due: Due<'_>) -> Result<usize, WrongToken>
    requires { at ≤ length text.now }
    ensures { Exactly text.now at (due_read due.entry) result × StepWithin text.now result }
{
    let token = next(text, at);
    if is_due(token.lexeme, due) {
        Ok(token.next)
    } else {
        Err(WrongToken(token.place))
    }
}

// The offset behind tokens that must come one after the other.
pub fn exact_all(text: &[u8], from: usize, dues: &[Due<'_>]) -> Result<usize, WrongToken>
    requires { from ≤ length text.now }
    ensures { Passes text.now from dues.now result }
{
    let mut at = from;
    for due in dues {
        at = exact(text, at, *due)?;
    }
    Ok(at)
}
