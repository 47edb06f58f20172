// A declared function: its name, its rank, and the closing bracket.
ghost use Rattle.std.specs.Prelude.{◌≤◌, length};
ghost use Rattle.terms.specs.Functions.{ReadsName, ReadsRank, ReadsFunction};

use crate::declared::Signature;
use crate::exact::{Due, WrongToken, exact};
use crate::prologue::Named;
use crate::ranks::{byte_of, read_arity, read_result};
use crate::tokens::{Lexeme, next};

// A symbol's byte, and the offset behind its declaration.
#[derive(Clone, Copy)]
pub struct Ranked {
    pub byte: usize,
    pub at: usize,
}

// A declared symbol: its name, its byte and the offset behind its declaration.
#[derive(Clone, Copy)]
pub struct Function<'a> {
    pub name: &'a [u8],
    pub byte: usize,
    pub at: usize,
}

// The name, and the bracket that opens its arguments.
fn function_name<'a>(signature: Signature<'a, '_>, at: usize) -> Result<Named<'a>, WrongToken>
    requires { at ≤ length signature.text.now }
    ensures { let g = signature.entry in ReadsName g.text.now g.shelf.now g.declared at result }
{
    let text = signature.text;
    let token = next(text, at);
    let Lexeme::Symbol(name) = token.lexeme else {
        return Err(WrongToken(token.place));
    };
    if !signature.free(name) {
        return Err(WrongToken(token.place));
    }
    let opened = exact(text, token.next, Due::Opening)?;
    Ok(Named { name, at: opened })
}

// The result after so many arguments, and the bracket that closes the declaration.
fn rank_of(text: &[u8], at: usize, sort: &[u8], arity: usize) -> Result<Ranked, WrongToken>
    requires { (at ≤ length text.now) × (arity ≤ 3) }
    ensures { ReadsRank text.now at sort.now arity result }
{
    let given = read_result(text, at, sort)?;
    let closed = exact(text, given.at, Due::Closing)?;
    Ok(Ranked {
        byte: byte_of(arity, given.result),
        at: closed,
    })
}

// What stands after declare-fun.
pub fn read_function<'a>(
    signature: Signature<'a, '_>,
    at: usize,
) -> Result<Function<'a>, WrongToken>
    requires { at ≤ length signature.text.now }
    ensures { let g = signature.entry in ReadsFunction g.text.now g.shelf.now g.declared at result }
{
    let text = signature.text;
    let sort = signature.declared.sort;
    let named = function_name(signature, at)?;
    let counted = read_arity(text, named.at, sort)?;
    let ranked = rank_of(text, counted.next, sort, counted.arity)?;
    Ok(Function {
        name: named.name,
        byte: ranked.byte,
        at: ranked.at,
    })
}
