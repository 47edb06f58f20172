// The end of a text: check-sat's closing bracket, and nothing after it.
ghost use Rattle.std.specs.Prelude.{◌≤◌, length};
ghost use Rattle.text.specs.Checking.{ReadsEnd};

use terms::exact::{Due, WrongToken, exact};
use terms::tokens::{Lexeme, next};

// What stands after check-sat.
pub fn read_end(text: &[u8], at: usize) -> Result<(), WrongToken>
    requires { at ≤ length text.now }
    ensures { ReadsEnd text.now at result }
{
    let closed = exact(text, at, Due::Closing)?;
    let token = next(text, closed);
    match token.lexeme {
        Lexeme::End => Ok(()),
        _ => Err(WrongToken(token.place)),
    }
}
