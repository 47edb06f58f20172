// A row of bytes that grows up to a bound.
ghost use Rattle.std.specs.Prelude.{◌≡◌, ℕ, ◌≤◌, List, [], length, take};
ghost use Rattle.terms.specs.Padded.{padded, Filled, length-used};
ghost use Rattle.text.specs.Bytes.{Pushes};

use std::marker::Model;

// At most N bytes, with zeros past them.
#[derive(Clone, Copy)]
pub struct Bytes<const N: usize> {
    bytes: [u8; N],
    count: usize,
}

impl<const N: usize> Model for Bytes<N> {
    ghost Value = { List ℕ };

    ghost view = { λ b. take b.count b.bytes };

    ghost invariant = { λ b. (b.count ≤ N) × Filled 0 N b.bytes b.count };

    ghost inverse = { λ bs. record { bytes = padded 0 N bs; count = length bs } };

    ghost inverse_ok = { λ b h i. record { bytes = h.1 i; count = length-used 0 N b.bytes b.count h.0 h.1 i } };
}

impl<const N: usize> Bytes<N> {
    pub fn new() -> Self
        ensures { result ≡ [] }
    {
        Bytes {
            bytes: [0; N],
            count: 0,
        }
    }

    // One byte more, if there is room.
    pub fn push(&mut self, byte: u8) -> bool
        ensures { Pushes N byte self.old result self.new }
    {
        if self.count == N {
            return false;
        }
        self.bytes[self.count] = byte;
        self.count += 1;
        true
    }

    pub fn as_slice(&self) -> &[u8]
        ensures all { result.now ≡ self.now }
        ensures few { length result.now ≤ N }
    {
        &self.bytes[..self.count]
    }
}
