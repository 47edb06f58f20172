// From the bytes of a text to its tokens, one at a time (02, E1; docs/TEXT.md, 'Tokens').
ghost use Rattle.std.specs.Prelude.{◌≡◌, ◌<◌, ◌≤◌, true, length, get_or, drop};
ghost use Rattle.definitions.specs.Text.Tokens.{word_byte, run};
ghost use Rattle.terms.specs.Lexing.{CommentTo, BlankTo, RunsTo, BarredTo, numeral_read, bracket_read, TokenIs, Lexed};

use crate::bytes::{bar_byte, line_break, white, word_byte};
use crate::words::reserved;

// A symbol and a word hold their name's bytes in the text, bars left out. Wrong is the kind of a token that is none, and no failure:
// whoever asks for a token refuses it as one of another kind.
#[derive(Clone, Copy, PartialEq, Eq)]
pub enum Lexeme<'a> {
    End,
    Opening,
    Closing,
    Nought,
    Wrong,
    Symbol(&'a [u8]),
    Word(&'a [u8]),
}

// A token, the place of its first byte and the offset after its last one. At the end of the text both are its length.
#[derive(Clone, Copy)]
pub struct Token<'a> {
    pub lexeme: Lexeme<'a>,
    pub place: usize,
    pub next: usize,
}

// Where the gap goes on after a comment: past a line break, or at the end of the text.
fn comment_end(text: &[u8], from: usize) -> usize
    requires { from ≤ length text.now }
    ensures { CommentTo text.now from result }
{
    let mut at = from;
    // No `for`: of this loop and the next one the compiler makes fewer and shorter jumps, and texts of blanks are read twice as fast.
    while at < text.len() {
        if line_break(text[at]) {
            return at + 1;
        }
        at += 1;
    }
    at
}

// Where white space and comments end. By itself: inside `next` the compiler has too few registers for it, and makes it slower by a half.
#[inline(never)]
fn blank_end(text: &[u8], from: usize) -> usize
    requires { from ≤ length text.now }
    ensures { BlankTo text.now from result }
{
    let mut at = from;
    while at < text.len() {
        let b = text[at];
        if white(b) {
            at += 1;
            continue;
        }
        if b != b';' {
            return at;
        }
        at = comment_end(text, at + 1);
    }
    at
}

// Where the longest run of word bytes ends.
fn word_end(text: &[u8], from: usize) -> usize
    requires { from ≤ length text.now }
    ensures { RunsTo text.now from (run (drop from text.now)) result }
{
    from + text[from..].iter().take_while(|b| word_byte(**b)).count()
}

// Where the closing bar stands, if the bars are closed and hold no other byte.
fn bar_end(text: &[u8], from: usize) -> Option<usize>
    requires { from ≤ length text.now }
    ensures { BarredTo text.now from result }
{
    let at = from + text[from..].iter().take_while(|b| bar_byte(**b)).count();
    (at < text.len() && text[at] == b'|').then_some(at)
}

// A word: a numeral is a token only if it is exactly 0, and a reserved word is no symbol.
fn word_token(text: &[u8], place: usize) -> Token<'_>
    requires { (place < length text.now) × (word_byte (get_or text.now place 0) ≡ true) }
    ensures { TokenIs text.now place result }
{
    let next = word_end(text, place);
    let name = &text[place..next];
    let lexeme = if text[place].is_ascii_digit() {
        numeral(name)
    } else if reserved(name) {
        Lexeme::Word(name)
    } else {
        Lexeme::Symbol(name)
    };
    Token {
        lexeme,
        place,
        next,
    }
}

#[tactic(auto, using(crate::proofs::SameLaws::names))]
fn numeral(digits: &[u8]) -> Lexeme<'static>
    ensures { result ≡ numeral_read digits.now }
{
    if digits == b"0".as_slice() {
        Lexeme::Nought
    } else {
        Lexeme::Wrong
    }
}

// A symbol in bars; bars that are not closed, or hold another byte, are refused at the opening bar.
fn bar_token(text: &[u8], place: usize) -> Token<'_>
    requires { (place < length text.now) × (get_or text.now place 0 ≡ 124) }
    ensures { TokenIs text.now place result }
{
    let from = place + 1;
    match bar_end(text, from) {
        Some(to) => Token {
            lexeme: Lexeme::Symbol(&text[from..to]),
            place,
            next: to + 1,
        },
        None => Token {
            lexeme: Lexeme::Wrong,
            place,
            next: from,
        },
    }
}

// The token of one byte; any other byte starts none.
fn byte_token(b: u8) -> Lexeme<'static>
    ensures { result ≡ bracket_read b }
{
    match b {
        b'(' => Lexeme::Opening,
        b')' => Lexeme::Closing,
        _ => Lexeme::Wrong,
    }
}

// The first token from an offset on. The offset is asked to be in the text, since the two go together nowhere else: a cursor of both
// would be built anew for each token.
pub fn next(text: &[u8], at: usize) -> Token<'_>
    requires { at ≤ length text.now }
    ensures { Lexed text.now at result }
{
    let place = blank_end(text, at);
    if place == text.len() {
        return Token {
            lexeme: Lexeme::End,
            place,
            next: place,
        };
    }
    let b = text[place];
    if word_byte(b) {
        return word_token(text, place);
    }
    if b == b'|' {
        return bar_token(text, place);
    }
    Token {
        lexeme: byte_token(b),
        place,
        next: place + 1,
    }
}
