// The line of a witness's row, before and after the symbol's name.
ghost use Rattle.std.specs.Prelude.{◌≡◌, ◌+◌, ◌*◌, ◌≤◌, ◌++◌, length, eqb};
ghost use Rattle.definitions.specs.Bytes.{byte_at};
ghost use Rattle.definitions.specs.Problem.Ops.{is_function};
ghost use Rattle.definitions.specs.Witness.{row_at};
ghost use Rattle.definitions.specs.Solve.{bar, another, arguments, truth, value, row_start, row_end};
ghost use Rattle.solve_lines.specs.Read.{row_read};

use lines::line::Line;

// A symbol, three argument values, and the value there.
#[derive(Clone, Copy)]
pub struct Row {
    pub symbol: u8,
    pub x: u8,
    pub y: u8,
    pub z: u8,
    pub value: u8,
}

// The byte at an offset; 0 past the end.
pub fn byte_at(s: &[u8], i: usize) -> u8
    ensures { result ≡ byte_at s.now i }
{
    s.get(i).copied().unwrap_or(0)
}

// Row k of a witness.
pub fn row_at(witness: &[u8], k: u8) -> Row
    ensures { row_read result ≡ row_at witness.now (6 + 5 * k) }
{
    let at = 6 + 5 * usize::from(k);
    Row {
        symbol: byte_at(witness, at),
        x: byte_at(witness, at + 1),
        y: byte_at(witness, at + 2),
        z: byte_at(witness, at + 3),
        value: byte_at(witness, at + 4),
    }
}

fn put_bar(line: &mut Line<256>, barred: bool)
    requires { length line.old + 1 ≤ 256 }
    ensures bar { line.new ≡ line.old ++ bar barred }
    ensures short { length line.new ≤ length line.old + 1 }
{
    if barred {
        line.put(b"|");
    }
}

// One more argument, if there is one.
fn put_another(line: &mut Line<256>, more: bool, v: u8)
    requires { length line.old + 22 ≤ 256 }
    ensures another { line.new ≡ line.old ++ another more v }
    ensures short { length line.new ≤ length line.old + 22 }
{
    if more {
        line.put(b",");
        line.put_number(u64::from(v));
    }
}

fn put_arguments(line: &mut Line<256>, arity: u8, row: Row)
    requires { length line.old + 66 ≤ 256 }
    ensures arguments { line.new ≡ line.old ++ arguments arity (row_read row) }
    ensures short { length line.new ≤ length line.old + 66 }
{
    if arity == 0 {
        return;
    }
    line.put(b"(");
    line.put_digits(u64::from(row.x));
    put_another(line, 1 < arity, row.y);
    put_another(line, 2 < arity, row.z);
    line.put(b")");
}

// A function's value, or a predicate's, by the symbol's byte.
fn put_value(line: &mut Line<256>, byte: u8, v: u8)
    requires { length line.old + 20 ≤ 256 }
    ensures value { line.new ≡ line.old ++ value (is_function byte) v }
    ensures short { length line.new ≤ length line.old + 20 }
{
    if byte < 4 {
        line.put_digits(u64::from(v));
    } else if v == 1 {
        line.put(b"true");
    } else {
        line.put(b"false");
    }
}

pub fn row_start(barred: bool) -> Line<256>
    ensures { result ≡ row_start barred }
{
    let mut line = Line::new();
    line.put(b"; ");
    put_bar(&mut line, barred);
    line
}

pub fn row_end(barred: bool, byte: u8, row: Row) -> Line<256>
    ensures { result ≡ row_end barred byte (row_read row) }
{
    let mut line = Line::new();
    put_bar(&mut line, barred);
    put_arguments(&mut line, byte % 16, row);
    line.put(b" = ");
    put_value(&mut line, byte, row.value);
    line.put(b"\n");
    line
}
