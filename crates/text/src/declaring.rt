// A function's declaration.
ghost use Rattle.text.specs.Declaring.{DeclareAsked, Declares};

use crate::scripts::Script;
use crate::shelving::shelve;
use definitions::Refusal;
use terms::declared::{Shelved, Signature};
use terms::functions::read_function;

// What stands after declare-fun.
pub fn read_declaration<'a>(
    text: &'a [u8],
    at: usize,
    shelf: &mut [Shelved<'a>],
    script: &mut Script<'a>,
) -> Result<(), Refusal>
    requires { DeclareAsked text.now at shelf.old script.old }
    ensures { Declares text.now at shelf.old script.old result shelf.new script.new }
{
    let signature = Signature {
        text,
        shelf,
        declared: script.declared,
    };
    let function = read_function(signature, at)?;
    shelve(shelf, script, function);
    Ok(())
}
