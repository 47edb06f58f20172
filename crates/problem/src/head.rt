// The header: conditions 1 to 5, and the problem that they leave.
ghost use Rattle.std.specs.Prelude.{◌≡◌, ◌+◌, ◌*◌, ◌≤◌, length};
ghost use Rattle.definitions.specs.Problem.Asked.{last_node};

use crate::bytes::two_at;
use definitions::Refusal;
use std::marker::Model;

// Problem bytes whose header is read: how many symbols and how many nodes stand in them, and that they all do. A contract sees the
// bytes.
#[derive(Drop)]
pub struct Problem<'a> {
    pub bytes: &'a [u8],
    pub symbols: usize,
    pub nodes: usize,
}

impl<'a> Model for Problem<'a> {
    ghost use Rattle.std.specs.Prelude.{ℕ, List};

    ghost Value = { List ℕ };

    ghost use Rattle.problem.specs.Shape.{Shaped};

    ghost view = { λ p. p.bytes.now };

    ghost invariant = { Shaped };
}

impl<'a> Problem<'a> {
    ghost use Rattle.problem.specs.Stages.{HeadRead};

    #[tactic(auto, unfolding(definitions::specs::Problem::Check::layout_refusal))]
    pub fn read_head(bytes: &'a [u8]) -> Result<Self, Refusal>
        ensures { HeadRead bytes.now result }
    {
        if bytes.len() < 8 {
            return Err(Refusal::TooShort);
        }
        if !bytes.starts_with(b"EQP") {
            return Err(Refusal::NotEqp);
        }
        if two_at(bytes, 3) != 1 {
            return Err(Refusal::BadVersion);
        }
        let symbols = usize::from(bytes[5]);
        let nodes = two_at(bytes, 6);
        if 32 < symbols || nodes == 0 || 256 < nodes {
            return Err(Refusal::BadCounts);
        }
        if bytes.len() != 8 + symbols + 8 * nodes {
            return Err(Refusal::BadLength);
        }
        Ok(Problem {
            bytes,
            symbols,
            nodes,
        })
    }
}

// The last node of a problem, which the night run and solver text name.
#[tactic(auto, unfolding(definitions::specs::Problem::Asked::last_node))]
pub fn last_node(s: &[u8]) -> usize
    ensures { 8 ≤ length s.now → result ≡ last_node s.now }
{
    if s.len() < 8 {
        return 0;
    }
    two_at(s, 6).saturating_sub(1)
}
