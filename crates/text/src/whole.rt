// A whole text: its commands, one after another.
ghost use Rattle.text.specs.Scripted.{Scripted};
ghost use Rattle.text.specs.Whole.{WholeIs};

use crate::asserting::read_assert;
use crate::checking::read_end;
use crate::commands::{Command, read_command};
use crate::declaring::read_declaration;
use crate::scripts::Script;
use definitions::Refusal;
use terms::declared::Shelved;

// The commands, from the next one on.
pub fn read_commands<'a>(
    text: &'a [u8],
    shelf: &mut [Shelved<'a>],
    script: &mut Script<'a>,
) -> Result<(), Refusal>
    requires { Scripted text.now shelf.old script.old }
    ensures { WholeIs text.now shelf.new script.new result }
{
    // No `for`: where each command begins, and whether one follows, the command before it tells.
    loop {
        let begun = read_command(text, script.declared.command)?;
        match begun.command {
            Command::Declare => read_declaration(text, begun.at, shelf, script)?,
            Command::Assert => read_assert(text, begun.at, shelf, script)?,
            Command::Check => return Ok(read_end(text, begun.at)?),
        }
    }
}
