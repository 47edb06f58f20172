// An assert: its term, and the bracket that closes it.
ghost use Rattle.text.specs.Asserting.{Keeps, AssertAsked, ReadsAssert};

use crate::scripts::Script;
use definitions::Refusal;
use problem::ops::Sort;
use terms::declared::{Shelved, Signature};
use terms::exact::{Due, WrongToken, exact};
use terms::terms::read_term;
use terms::tokens::{Lexeme, next};

// The assert's number is kept, and the next command begins at an offset. A 257th assert is too much.
fn keep(script: &mut Script<'_>, number: u8, at: usize)
    ensures { Keeps script.old number at script.new }
{
    script.declared.command = at;
    if !script.roots.push(number) {
        script.table.give_up();
    }
}

// What stands after assert.
pub fn read_assert<'a>(
    text: &'a [u8],
    at: usize,
    shelf: &[Shelved<'a>],
    script: &mut Script<'a>,
) -> Result<(), Refusal>
    requires { AssertAsked text.now at shelf.now script.old }
    ensures { ReadsAssert text.now at shelf.now script.old result script.new }
{
    let token = next(text, at);
    if let Lexeme::Closing = token.lexeme {
        return Err(Refusal::WrongToken(token.place));
    }
    let signature = Signature {
        text,
        shelf,
        declared: script.declared,
    };
    let term = read_term(signature, token, Sort::Formula, 64, &mut script.table)?;
    let closed = exact(text, term.at, Due::Closing)?;
    keep(script, term.number, closed);
    Ok(())
}
