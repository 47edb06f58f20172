// The declared symbols: the first of them on a shelf, and the others in the text itself.
ghost use Rattle.std.specs.Prelude.{◌≡◌, ◌*◌, ◌≤◌, length, take};
ghost use Rattle.definitions.specs.Text.Grammar.{solvers_own};
ghost use Rattle.terms.specs.Declarations.{declared_in, plain_at};
ghost use Rattle.terms.specs.Symbols.{ShelfSound, DeclaredSound, FoundOn, KnownIn, Finds, Frees};

use crate::declarations::{byte_at, declaration_from, declares};
use crate::words::core;

// How many symbols are declared; the offset of the command that is being read, before which all of them stand; the sort's name;
// and whether a constant of the sort is among them.
#[derive(Clone, Copy)]
pub struct Declared<'a> {
    pub count: usize,
    pub command: usize,
    pub sort: &'a [u8],
    pub inhabited: bool,
}

// A symbol on the shelf: its name, and its byte in the problem, the arity and 16 more for Bool.
#[derive(Clone, Copy)]
pub struct Shelved<'a> {
    pub name: &'a [u8],
    pub byte: usize,
}

// A declared symbol: its number, and its byte.
#[derive(Clone, Copy)]
pub struct Known {
    pub number: usize,
    pub byte: usize,
}

// The symbols that a text declares before a command; the shelf is lent for a shorter time than the text.
#[derive(Clone, Copy)]
pub struct Signature<'a, 's> {
    pub text: &'a [u8],
    pub shelf: &'s [Shelved<'a>],
    pub declared: Declared<'a>,
    ghost sound: { DeclaredSound text.now shelf.now declared },
}

// The first symbol of a name on the shelf.
#[tactic(auto, using(crate::proofs::SameLaws::names))]
fn on_shelf(shelf: &[Shelved<'_>], name: &[u8]) -> Option<usize>
    ensures { FoundOn shelf.now name.now result }
{
    shelf.iter().position(|shelved| name == shelved.name)
}

// The first symbol of a name among all of them, read again from the text.
fn find_in_text(text: &[u8], declared: Declared<'_>, name: &[u8]) -> Option<Known>
    ensures { let d = declared.entry in KnownIn (take d.count (declared_in d.sort.now (plain_at text.now 0))) name.now result }
{
    let mut at = 0;
    for number in 0..declared.count {
        at = declaration_from(text, at)?;
        if declares(text, at, name) {
            return Some(Known {
                number,
                byte: byte_at(text, at, declared.sort),
            });
        }
    }
    None
}

impl Signature<'_, '_> {
    // The symbol of a name.
    pub fn find(self, name: &[u8]) -> Option<Known>
        ensures { let g = self.entry in Finds g.text.now g.shelf.now g.declared name.now result }
    {
        let held = self.declared.count.min(self.shelf.len());
        match on_shelf(&self.shelf[..held], name) {
            Some(number) => Some(Known {
                number,
                byte: self.shelf[number].byte,
            }),
            None if held < self.declared.count => find_in_text(self.text, self.declared, name),
            None => None,
        }
    }

    // A name may be declared.
    pub fn free(self, name: &[u8]) -> bool
        ensures { let g = self.entry in Frees g.text.now g.shelf.now g.declared name.now result }
    {
        if core(name).is_some() {
            return false;
        }
        if self.find(name).is_some() {
            return false;
        }
        !solvers_own(name)
    }
}

// The names that begin with @ or . are the solvers' own.
pub fn solvers_own(name: &[u8]) -> bool
    ensures { result ≡ solvers_own name.now }
{
    name.starts_with(b"@") || name.starts_with(b".")
}
