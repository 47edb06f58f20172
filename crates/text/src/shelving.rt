// A declared function is kept: its name and byte on the shelf, its byte among the problem's symbols.
ghost use Rattle.text.specs.Shelving.{Shelvable, Placed, Shelves};

use crate::scripts::Script;
use terms::declared::Shelved;
use terms::functions::Function;

// The next place of the shelf, if there is one.
fn place<'a>(shelf: &mut [Shelved<'a>], count: usize, function: Function<'a>)
    ensures { Placed shelf.old count function.entry shelf.new }
{
    if count < shelf.len() {
        shelf[count] = Shelved {
            name: function.name,
            byte: function.byte,
        };
    }
}

// The function is declared, and the next command begins behind it. A 33rd symbol is too much.
pub fn shelve<'a>(shelf: &mut [Shelved<'a>], script: &mut Script<'_>, function: Function<'a>)
    requires { Shelvable script.old function }
    ensures { Shelves shelf.old script.old function.entry shelf.new script.new }
{
    place(shelf, script.declared.count, function);
    script.declared.count += 1;
    script.declared.command = function.at;
    script.declared.inhabited |= function.byte == 0;
    if !script.symbols.push(function.byte as u8) {
        script.table.give_up();
    }
}
