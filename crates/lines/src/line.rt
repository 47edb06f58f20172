// A line as it is written: the bytes so far, of at most N. The programs' lines have at most 256.
ghost use Rattle.std.specs.Prelude.{◌≡◌, ◌+◌, ◌≤◌, [], ◌++◌, length};
ghost use Rattle.definitions.specs.Night.{word, decimal};

use itoa::Buffer;
use std::marker::Model;

#[derive(Drop)]
pub struct Line<const N: usize> {
    bytes: [u8; N],
    len: usize,
}

impl<const N: usize> Model for Line<N> {
    ghost use Rattle.std.specs.Prelude.{ℕ, List, ◌≤◌, take};

    ghost Value = { List ℕ };

    ghost view = { λ l. take l.len l.bytes };

    ghost invariant = { λ l. l.len ≤ N };
}

impl<const N: usize> Line<N> {
    pub fn new() -> Self
        ensures { result ≡ [] }
    {
        Line {
            bytes: [0; N],
            len: 0,
        }
    }

    pub fn as_bytes(&self) -> &[u8]
        ensures { result.now ≡ self.now }
    {
        &self.bytes[..self.len]
    }

    // Room is asked for: where a line is made its length is known, and a `put` that can fail would need an answer in its place.
    pub fn put(&mut self, bytes: &[u8])
        requires { length self.old + length bytes.now ≤ N }
        ensures { self.new ≡ self.old ++ bytes.now }
    {
        let end = self.len + bytes.len();
        let room = &mut self.bytes[..];
        room[self.len..end].copy_from_slice(bytes);
        self.len = end;
    }

    // The digits of a number. A 64-bit number has at most 20.
    #[tactic(auto, using(crate::proofs::Decimal::same_decimal))]
    pub fn put_digits(&mut self, n: u64)
        requires { length self.old + 20 ≤ N }
        ensures digits { self.new ≡ self.old ++ decimal n }
        ensures short { length self.new ≤ length self.old + 20 }
    {
        let mut digits = Buffer::new();
        self.put(digits.format(n).as_bytes());
    }

    // A space and a number.
    pub fn put_number(&mut self, n: u64)
        requires { length self.old + 21 ≤ N }
        ensures number { self.new ≡ self.old ++ word (decimal n) }
        ensures short { length self.new ≤ length self.old + 21 }
    {
        self.put(b" ");
        self.put_digits(n);
    }
}
