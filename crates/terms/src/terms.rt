// Terms: each is read and laid, and calls itself on its sub-terms with the remaining depth falling.
ghost use Rattle.std.specs.Prelude.{◌≤◌, length};
ghost use Rattle.terms.specs.Terms.{ReadsBare, ReadsTerm};

use crate::arguments::{follows, head_at};
use crate::declared::Signature;
use crate::heads::{Place, head_of};
use crate::lists::Listing;
use crate::nodes::Table;
use crate::tokens::{Lexeme, Token, next};
use definitions::Refusal;
use problem::ops::Sort;

// A term that is read: the offset behind it, and its node's number.
#[derive(Clone, Copy)]
pub struct Term {
    pub at: usize,
    pub number: u8,
}

// A term with no bracket.
fn bare_term(
    signature: Signature<'_, '_>,
    token: Token<'_>,
    sort: Sort,
    table: &mut Table,
) -> Result<Term, Refusal>
    requires { token.next ≤ length signature.text.now }
    ensures { let g = signature.entry in ReadsBare g.text.now g.shelf.now g.declared token.entry sort table.old result table.new }
{
    let wrong = Refusal::WrongToken(token.place);
    let Lexeme::Symbol(name) = token.lexeme else {
        return Err(wrong);
    };
    let Some(head) = head_of(signature, name, sort, Place::Bare) else {
        return Err(wrong);
    };
    Ok(Term {
        at: token.next,
        number: Listing::new().finish(head, table),
    })
}

// The term that begins with a token, where so many levels are left.
pub fn read_term(
    signature: Signature<'_, '_>,
    token: Token<'_>,
    sort: Sort,
    levels: usize,
    table: &mut Table,
) -> Result<Term, Refusal>
    requires { (token.next ≤ length signature.text.now) × (levels ≤ 64) }
    ensures { let g = signature.entry in ReadsTerm g.text.now g.shelf.now g.declared token.entry sort levels table.old result table.new }
{
    let text = signature.text;
    let Lexeme::Opening = token.lexeme else {
        return bare_term(signature, token, sort, table);
    };
    if levels == 0 {
        return Err(Refusal::TooDeep(token.place));
    }
    let named = next(text, token.next);
    let Some(head) = head_at(signature, named.lexeme, sort) else {
        return Err(Refusal::WrongToken(named.place));
    };
    let mut listing = Listing::new();
    let mut following = next(text, named.next);
    // No `for`: a list ends where the text ends it.
    while let Some(wanted) = follows(head, listing.seen(), following)? {
        listing.prepare(head, table);
        let argument = read_term(signature, following, wanted, levels - 1, table)?;
        listing.add(head, argument.number, table);
        following = next(text, argument.at);
    }
    Ok(Term {
        at: following.next,
        number: listing.finish(head, table),
    })
}
