// The names that a text declares, as they are written there: the token after each word declare-fun.
ghost use Rattle.std.specs.Prelude.{◌≡◌, ◌≤◌, length};
ghost use Rattle.definitions.specs.Solve.{name_at};
ghost use Rattle.solve_lines.specs.Read.{first_at, WrittenAs};

use crate::rows::byte_at;
use terms::declarations::{is_declaring, name_of};
use terms::tokens::{Lexeme, next};

// A name's bytes, bars left out, and whether it is written in bars.
#[derive(Clone, Copy)]
pub struct Written<'a> {
    pub bytes: &'a [u8],
    pub barred: bool,
}

// The name of the first token from an offset on.
fn first_name(text: &[u8], at: usize) -> Written<'_>
    requires { at ≤ length text.now }
    ensures { WrittenAs text.now (first_at text.now at) result }
{
    let token = next(text, at);
    Written {
        bytes: name_of(token.lexeme),
        barred: byte_at(text, token.place) == b'|',
    }
}

// The offset behind the word declare-fun of symbol k; the end of the text past the last.
fn behind_declaring(text: &[u8], k: usize) -> usize
    ensures { (first_at text.now result ≡ name_at text.now k) × (result ≤ length text.now) }
{
    let mut at = 0;
    let mut number = 0;
    // No `for`: where the next token is looked for is known once this one is read.
    loop {
        let token = next(text, at);
        if let Lexeme::End = token.lexeme {
            return token.place;
        }
        at = token.next;
        if !is_declaring(token.lexeme) {
            continue;
        }
        if number == k {
            return at;
        }
        number += 1;
    }
}

// The name of symbol k, an empty one past the last.
pub fn name_at(text: &[u8], k: usize) -> Written<'_>
    ensures { WrittenAs text.now (name_at text.now k) result }
{
    let at = behind_declaring(text, k);
    first_name(text, at)
}
