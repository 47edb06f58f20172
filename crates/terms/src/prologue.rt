// What every text begins with: (set-logic QF_UF)(declare-sort NAME 0).
ghost use Rattle.std.specs.Prelude.{◌≡◌, ◌≤◌, length};
ghost use Rattle.definitions.specs.Text.Grammar.{new_sort};
ghost use Rattle.definitions.specs.Text.Reader.{start, goes, naming};
ghost use Rattle.terms.specs.Reading.{Reached, ReachedBy, StepWithin};
ghost use Rattle.terms.specs.Commands.{SortNamed, Begun};

use crate::declared::solvers_own;
use crate::exact::{Due, WrongToken, exact_all};
use crate::tokens::{Lexeme, next};

// A name, and the offset behind it.
#[derive(Clone, Copy)]
pub struct Named<'a> {
    pub name: &'a [u8],
    pub at: usize,
}

fn header(text: &[u8]) -> Result<usize, WrongToken>
    ensures { ReachedBy text.now (goes start naming) result × StepWithin text.now result }
{
    let header = [
        Due::Opening,
        Due::Word(b"set-logic"),
        Due::Symbol(b"QF_UF"),
        Due::Closing,
        Due::Opening,
        Due::Word(b"declare-sort"),
    ];
    exact_all(text, 0, &header)
}

// A name that a sort may have.
fn sort_free(name: &[u8]) -> bool
    ensures { result ≡ new_sort name.now }
{
    name != b"Bool".as_slice() && !solvers_own(name)
}

fn sort_name(text: &[u8], at: usize) -> Result<Named<'_>, WrongToken>
    requires { Reached text.now (goes start naming) at × (at ≤ length text.now) }
    ensures { SortNamed text.now result }
{
    let token = next(text, at);
    let Lexeme::Symbol(name) = token.lexeme else {
        return Err(WrongToken(token.place));
    };
    if !sort_free(name) {
        return Err(WrongToken(token.place));
    }
    Ok(Named {
        name,
        at: token.next,
    })
}

pub fn prologue(text: &[u8]) -> Result<Named<'_>, WrongToken>
    ensures { Begun text.now result }
{
    let begun = header(text)?;
    let sort = sort_name(text, begun)?;
    let closed = exact_all(text, sort.at, &[Due::Nought, Due::Closing])?;
    Ok(Named {
        name: sort.name,
        at: closed,
    })
}
