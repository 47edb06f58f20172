// Which head a name gives, where a term of a sort is wanted; and what arguments a head wants.
ghost use Rattle.std.specs.Prelude.{◌≡◌, ◌<◌};
ghost use Rattle.definitions.specs.Text.Tokens.{symbol};
ghost use Rattle.terms.specs.Symbols.{KnownSmall};
ghost use Rattle.problem.specs.Wanted.{sort_read, wanted_read};
ghost use Rattle.terms.specs.Heads.{ArityIn, CoreAt, KnownAt, named_at, Heads, least_of, Readies, wanted_below, Wants};

use crate::declared::{Known, Signature};
use crate::words::core;
use problem::ops::Sort;

// What heads a term: a declared symbol by its number, its result and its arity; ite by the sort that it chooses in; and Core's.
#[derive(Clone, Copy)]
pub enum Head {
    Applied {
        number: usize,
        sort: Sort,
        arity: usize,
    },
    Choice {
        sort: Sort,
    },
    Equals,
    Not,
    And,
    Or,
    Implies,
    True,
    False,
}

// Where a head stands: bare, or after a bracket.
#[derive(Clone, Copy)]
pub enum Place {
    Bare,
    Bracketed,
}

// The arity of a symbol, by its byte, if it gives the sort that is wanted.
fn arity_in(byte: usize, sort: Sort) -> Option<usize>
    requires { byte < 20 }
    ensures { ArityIn byte sort result }
{
    match sort {
        Sort::Term => (byte < 4).then_some(byte),
        Sort::Formula => byte.checked_sub(16),
    }
}

// The head that Core's name of a number gives: the number is the name's place in Core's table, as in the definition. An enum of the
// ten would need a second table, from places to its variants.
fn core_head(k: usize, sort: Sort, place: Place, inhabited: bool) -> Option<Head>
    ensures { CoreAt place sort inhabited k result }
{
    match (place, sort, k) {
        (Place::Bare, Sort::Formula, 0) => Some(Head::True),
        (Place::Bare, Sort::Formula, 1) => Some(Head::False),
        (Place::Bracketed, Sort::Formula, 2) => Some(Head::Not),
        (Place::Bracketed, Sort::Formula, 3) => Some(Head::Implies),
        (Place::Bracketed, Sort::Formula, 4) => Some(Head::And),
        (Place::Bracketed, Sort::Formula, 5) => Some(Head::Or),
        (Place::Bracketed, Sort::Formula, 7) if inhabited => Some(Head::Equals),
        (Place::Bracketed, Sort::Formula, 9) => Some(Head::Choice { sort }),
        (Place::Bracketed, Sort::Term, 9) if inhabited => Some(Head::Choice { sort }),
        _ => None,
    }
}

// The head that a declared symbol gives: one of no arguments stands bare, and any other after a bracket, where there are terms for it.
fn known_head(known: Option<Known>, sort: Sort, place: Place, inhabited: bool) -> Option<Head>
    requires { KnownSmall known }
    ensures { KnownAt place known sort inhabited result }
{
    let Known { number, byte } = known?;
    let arity = arity_in(byte, sort)?;
    let stands = match place {
        Place::Bare => arity == 0,
        Place::Bracketed => arity != 0 && inhabited,
    };
    stands.then_some(Head::Applied {
        number,
        sort,
        arity,
    })
}

// The head that a name gives at a place: one of Core's, or a declared symbol.
pub fn head_of(signature: Signature<'_, '_>, name: &[u8], sort: Sort, place: Place) -> Option<Head>
    ensures { let g = signature.entry in Heads (λ sig. named_at place sig (sort_read sort) (symbol name.now)) g.text.now g.shelf.now g.declared result }
{
    let inhabited = signature.declared.inhabited;
    match core(name) {
        Some(k) => core_head(k, sort, place, inhabited),
        None => known_head(signature.find(name), sort, place, inhabited),
    }
}

// How many arguments must come.
fn least(head: Head) -> usize
    ensures { result ≡ least_of head }
{
    match head {
        Head::Applied { arity, .. } => arity,
        Head::Choice { .. } => 3,
        Head::Equals | Head::And | Head::Or | Head::Implies => 2,
        Head::Not => 1,
        Head::True | Head::False => 0,
    }
}

// None is left that must come, after so many arguments; three stand for any more.
pub fn ready(head: Head, seen: usize) -> bool
    ensures { Readies head seen result }
{
    least(head) <= seen
}

// A sort is wanted where fewer than so many arguments are seen.
fn below(seen: usize, arity: usize, sort: Sort) -> Option<Sort>
    ensures { wanted_read result ≡ wanted_below (sort_read sort) seen arity }
{
    (seen < arity).then_some(sort)
}

// What may come next, after so many arguments; three stand for any more.
pub fn wants(head: Head, seen: usize) -> Option<Sort>
    ensures { Wants head seen result }
{
    match head {
        Head::Applied { arity, .. } => below(seen, arity, Sort::Term),
        Head::Choice { .. } if seen == 0 => Some(Sort::Formula),
        Head::Choice { sort } => below(seen, 3, sort),
        Head::Equals => Some(Sort::Term),
        Head::Not => below(seen, 1, Sort::Formula),
        Head::And | Head::Or | Head::Implies => Some(Sort::Formula),
        Head::True | Head::False => None,
    }
}
