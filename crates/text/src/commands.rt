// Which command comes.
ghost use Rattle.std.specs.Prelude.{◌≡◌, ◌≤◌, length};
ghost use Rattle.text.specs.Commands.{command_of, ReadsCommand};

use terms::exact::{Due, WrongToken, exact};
use terms::tokens::{Lexeme, next};

#[derive(Clone, Copy)]
pub enum Command {
    Declare,
    Assert,
    Check,
}

impl Command {
    // The command of a word.
    #[tactic(auto, using(terms::proofs::SameLaws::equal_same))]
    fn of(word: &[u8]) -> Option<Self>
        ensures { result ≡ command_of word.now }
    {
        if word == b"declare-fun".as_slice() {
            Some(Command::Declare)
        } else if word == b"assert".as_slice() {
            Some(Command::Assert)
        } else if word == b"check-sat".as_slice() {
            Some(Command::Check)
        } else {
            None
        }
    }
}

// A command, and the offset behind its word.
#[derive(Clone, Copy)]
pub struct Begun {
    pub command: Command,
    pub at: usize,
}

// The command that begins at an offset.
pub fn read_command(text: &[u8], at: usize) -> Result<Begun, WrongToken>
    requires { at ≤ length text.now }
    ensures { ReadsCommand text.now at result }
{
    let opened = exact(text, at, Due::Opening)?;
    let token = next(text, opened);
    let wrong = Err(WrongToken(token.place));
    let Lexeme::Word(name) = token.lexeme else {
        return wrong;
    };
    match Command::of(name) {
        Some(command) => Ok(Begun {
            command,
            at: token.next,
        }),
        None => wrong,
    }
}
