// A place in the text as people count it: lines and columns from 1.
ghost use Rattle.std.specs.Prelude.{◌≡◌};
ghost use Rattle.definitions.specs.Solve.{position_of};
ghost use Rattle.solve_lines.specs.Read.{position_read};

#[derive(Clone, Copy)]
pub struct Position {
    pub line: usize,
    pub column: usize,
}

// The position of a place; past the end of the text, that of its end.
pub fn position_of(text: &[u8], place: usize) -> Position
    ensures { position_read result ≡ position_of text.now place }
{
    let mut line = 1;
    let mut column = 1;
    let before = &text[..place.min(text.len())];
    for byte in before {
        if *byte == b'\n' {
            line += 1;
            column = 1;
        } else {
            column += 1;
        }
    }
    Position { line, column }
}
