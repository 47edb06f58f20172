// The bytes of a text: which of them make a word, a gap or a name in bars.
ghost use Rattle.std.specs.Prelude.{◌≡◌};
ghost use Rattle.definitions.specs.Text.Tokens.{is_of, white_space, line_break, word_byte, bar_byte};

// A byte is one of a few. Where these are a handful that stand in the code, the compiler makes one test of it; of `matches!` it makes
// a branch for each, and of `contains` a call.
pub fn is_of(few: &[u8], b: u8) -> bool
    ensures { result ≡ is_of few.now b }
{
    few.iter().any(|one| b == *one)
}

pub fn white(b: u8) -> bool
    ensures { result ≡ white_space b }
{
    is_of(b" \t\n\r", b)
}

pub fn line_break(b: u8) -> bool
    ensures { result ≡ line_break b }
{
    is_of(b"\n\r", b)
}

pub fn word_byte(b: u8) -> bool
    ensures { result ≡ word_byte b }
{
    b.is_ascii_alphanumeric() || b"~!@$%^&*_-+=<>.?/".contains(&b)
}

pub fn bar_byte(b: u8) -> bool
    ensures { result ≡ bar_byte b }
{
    match b {
        b'|' | b'\\' => false,
        b' '..=b'~' | 128..=255 => true,
        _ => white(b),
    }
}
