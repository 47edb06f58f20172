// Jobs in solver text: a text of the subset of SMT-LIB 2.6 that docs/TEXT.md describes becomes a problem (02, E1).
#![tactic(auto)]

ghost use Rattle.definitions.specs.Operations.Promises.{ReadPromise};
ghost use Rattle.text.specs.Readable.{Readable};

use crate::ending::end;
use crate::scripts::Script;
use crate::whole::read_commands;
use definitions::Refusal;
use terms::declared::Shelved;
use terms::prologue::{Named, prologue};

pub mod asserting;
pub mod bytes;
pub mod checking;
pub mod commands;
pub mod declaring;
pub mod ending;
pub mod scripts;
pub mod shelving;
pub mod whole;

// The commands, from the first on, where the prologue is read, with a shelf for the symbols.
fn read_with<'a>(
    text: &'a [u8],
    problem: &mut [u8],
    named: Named<'a>,
    shelf: &mut [Shelved<'a>],
) -> Result<usize, Refusal>
    requires { Readable text.now problem.old named }
    ensures { ReadPromise text.now problem.old result problem.new }
{
    let mut script = Script::new(named);
    read_commands(text, shelf, &mut script)?;
    end(problem, &mut script)
}

// With a shelf of 4096 symbols. Not generic in the length: an array of N structs that hold references gets no proof. To fill a shelf
// takes longer than to read a text that needs a quarter of it.
fn read_long<'a>(text: &'a [u8], problem: &mut [u8], named: Named<'a>) -> Result<usize, Refusal>
    requires { Readable text.now problem.old named }
    ensures { ReadPromise text.now problem.old result problem.new }
{
    let mut shelf = [Shelved { name: b"", byte: 0 }; 4096];
    read_with(text, problem, named, &mut shelf)
}

// With a shelf of 1024 symbols.
fn read_middle<'a>(text: &'a [u8], problem: &mut [u8], named: Named<'a>) -> Result<usize, Refusal>
    requires { Readable text.now problem.old named }
    ensures { ReadPromise text.now problem.old result problem.new }
{
    let mut shelf = [Shelved { name: b"", byte: 0 }; 1024];
    read_with(text, problem, named, &mut shelf)
}

// With a shelf of 256 symbols.
fn read_short<'a>(text: &'a [u8], problem: &mut [u8], named: Named<'a>) -> Result<usize, Refusal>
    requires { Readable text.now problem.old named }
    ensures { ReadPromise text.now problem.old result problem.new }
{
    let mut shelf = [Shelved { name: b"", byte: 0 }; 256];
    read_with(text, problem, named, &mut shelf)
}

// A text becomes a problem, or is refused. A declaration takes at least eighteen bytes, so a text needs no larger shelf than its length
// allows, unless it is long.
pub fn read(text: &[u8], problem: &mut [u8]) -> Result<usize, Refusal>
    ensures { ReadPromise text.now problem.old result problem.new }
{
    if problem.len() < 2088 {
        return Err(Refusal::ShortProblem);
    }
    let named = prologue(text)?;
    if text.len() >= 18432 {
        return read_long(text, problem, named);
    }
    if text.len() >= 4608 {
        return read_middle(text, problem, named);
    }
    if text.len() >= 1152 {
        return read_short(text, problem, named);
    }
    let mut shelf = [Shelved { name: b"", byte: 0 }; 64];
    read_with(text, problem, named, &mut shelf)
}
