// What the lines of the programs whose output is compared with a file are made of.
#![tactic(auto)]

use definitions::{Decision, Refusal, Verdict};
use std::fmt;

// A refusal: its number and its place.
#[derive(Drop)]
pub struct Refused(pub Refusal);

impl fmt::Display for Refused {
    fn fmt<W: fmt::Write>(&self, f: &mut fmt::Formatter<W>) -> fmt::Result {
        let number = self.0.number();
        let place = self.0.place();
        write!(f, "refused {number} {place}")
    }
}

// A decision: the verdict, how many places were tried, and the product.
#[derive(Drop)]
pub struct Decided(pub Decision);

impl fmt::Display for Decided {
    fn fmt<W: fmt::Write>(&self, f: &mut fmt::Formatter<W>) -> fmt::Result {
        let verdict = match self.0.verdict {
            Verdict::Valid => "valid",
            Verdict::Falsified { .. } => "falsified",
            Verdict::Stopped => "stopped",
        };
        let tried = self.0.tried;
        let product = self.0.product;
        write!(f, "{verdict} tried {tried} product {product}")
    }
}

// Bytes in hexadecimal, a space before each.
#[derive(Drop)]
pub struct Hexadecimal<'a>(pub &'a [u8]);

impl<'a> fmt::Display for Hexadecimal<'a> {
    fn fmt<W: fmt::Write>(&self, f: &mut fmt::Formatter<W>) -> fmt::Result {
        for byte in self.0 {
            write!(f, " {byte:02x}")?;
        }
        Ok(())
    }
}

// Small numbers in decimal, a space before each.
#[derive(Drop)]
pub struct Decimal<'a>(pub &'a [u8]);

impl<'a> fmt::Display for Decimal<'a> {
    fn fmt<W: fmt::Write>(&self, f: &mut fmt::Formatter<W>) -> fmt::Result {
        for number in self.0 {
            write!(f, " {number}")?;
        }
        Ok(())
    }
}

// The first bytes of a slice, or all where it has no more.
pub fn first(bytes: &[u8], count: usize) -> &[u8] {
    bytes.get(..count).unwrap_or(bytes)
}
