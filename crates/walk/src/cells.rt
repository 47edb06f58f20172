// The cells of false, true and the digits.
ghost use Rattle.std.specs.Prelude.{◌≡◌, ℕ, ◌+◌, ◌*◌, ◌%◌, ◌≤◌, ◌<◌, length, get_or};
ghost use Rattle.walk.specs.Cells.{Filled, least_of, SlowLaid};
ghost use Rattle.walk.specs.Digits.{Parted, fast_of};
ghost use Rattle.walk.specs.Laid.{DigitLaid, FastLaid, LanesReady};

use crate::odometer::Odometer;
use crate::split::Parts;

// The least value of a variable is 1, of a truth variable 0.
fn least(variables: usize, v: usize) -> u8
    ensures { result ≡ least_of variables v }
{
    u8::from(v < variables)
}

// One value in so many chunks of sixteen lanes. The first is filled by itself: where it is the only one, that is a single store.
fn fill(cells: &mut [u8], at: usize, chunks: usize, value: u8)
    requires { (1 ≤ chunks) × (chunks ≤ 8) × (at + 16 * chunks ≤ length cells.old) }
    ensures { Filled (16 * chunks) at value cells.old cells.new }
{
    cells[at..at + 16].fill(value);
    cells[at + 16..at + 16 * chunks].fill(value);
}

// The next value of a digit of some size: after the last comes 0.
fn following(digit: u8, size: u8) -> u8
    requires { digit < size }
    ensures { result ≡ (digit + 1) % size }
{
    if digit + 1 == size { 0 } else { digit + 1 }
}

// A fast digit in its lanes goes on by one after each run of them. A run is filled in whole chunks, and what is too much is
// overwritten by the next one, or stands in cells that are laid later.
fn lay_digit(cells: &mut [u8], at: usize, lanes: usize, run: usize, size: u8, least: u8)
    requires { (1 ≤ run) × (run ≤ 128) × (lanes ≤ 128) × (lanes % run ≡ 0) × (1 ≤ size) × (least ≤ 1) × (at + lanes + 15 ≤ length cells.old) }
    ensures { DigitLaid at lanes run size least cells.old cells.new }
{
    let chunks = run.div_ceil(16);
    let mut digit = 0;
    let mut lane = 0;
    // No `step_by`: by it small jobs took 5% longer.
    while lane < lanes {
        fill(cells, at + lane, chunks, digit + least);
        digit = following(digit, size);
        lane += run;
    }
}

// The fast digits, one after the other. A digit of a single value is one run.
fn lay_fast(variables: usize, parts: Parts, start: &Odometer, cells: &mut [u8])
    requires { Parted start.now parts × (16 * parts.chunks * 43 ≤ length cells.old) }
    ensures { FastLaid (16 * parts.chunks) variables (fast_of start.now parts) parts.fast cells.old cells.new }
{
    let mut run = 1;
    for (v, size) in start.sizes[..parts.fast].iter().enumerate() {
        let at = 16 * parts.chunks * (2 + v);
        let same = if *size == 1 { parts.lanes } else { run };
        lay_digit(cells, at, parts.lanes, same, *size, least(variables, v));
        run *= usize::from(*size);
    }
}

// False, true and the fast digits: these lanes are the same in every block.
pub fn lay_lanes(variables: usize, parts: Parts, start: &Odometer, cells: &mut [u8])
    requires { Parted start.now parts × (16 * parts.chunks * 43 ≤ length cells.old) }
    ensures { LanesReady (16 * parts.chunks) variables (fast_of start.now parts) cells.new }
{
    fill(cells, 0, parts.chunks, 0);
    fill(cells, 16 * parts.chunks, parts.chunks, 1);
    lay_fast(variables, parts, start, cells);
}

// The first slow digits, each in all lanes of its cell. Where a cell has no lanes, there is nothing to lay.
pub fn lay_slow(variables: usize, parts: Parts, digits: &[u8], cells: &mut [u8])
    requires { (parts.fast + length digits.now ≤ 40) × (parts.chunks ≤ 8) × (16 * parts.chunks * 42 ≤ length cells.old) × ((v : ℕ) → get_or digits.now v 0 + 1 < 256) }
    ensures { SlowLaid (16 * parts.chunks) variables parts.fast digits.now (length digits.now) cells.old cells.new }
{
    if parts.chunks == 0 {
        return;
    }
    for j in 0..digits.len() {
        let v = parts.fast + j;
        let at = 16 * parts.chunks * (2 + v);
        fill(cells, at, parts.chunks, digits[j] + least(variables, v));
    }
}
