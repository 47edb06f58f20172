// The answer's part of a job's line (01, 'The night run').
ghost use Rattle.std.specs.Prelude.{◌≡◌, ◌+◌, ◌≤◌, ◌++◌, length};
ghost use Rattle.definitions.specs.Night.{word, decimal, verdict_word, said};
ghost use Rattle.definitions.specs.Operations.Readings.{verdict_read, decision_read};

use crate::line::Line;
use definitions::{Decision, Refusal, Verdict};

// A verdict's word, which has its space.
fn word_of(verdict: Verdict) -> &'static [u8]
    ensures word { result.now ≡ word (verdict_word (verdict_read verdict)) }
    ensures short { length result.now ≤ 10 }
{
    match verdict {
        Verdict::Valid => b" VALID",
        Verdict::Falsified { .. } => b" FALSIFIED",
        Verdict::Stopped => b" STOPPED",
    }
}

// A word, which has its space, and two numbers.
fn put_three<const N: usize>(line: &mut Line<N>, name: &[u8], a: u64, b: u64)
    requires { length line.old + length name.now + 42 ≤ N }
    ensures three { line.new ≡ line.old ++ name.now ++ word (decimal a) ++ word (decimal b) }
    ensures short { length line.new ≤ length line.old + length name.now + 42 }
{
    line.put(name);
    line.put_number(a);
    line.put_number(b);
}

pub fn put_answer<const N: usize>(line: &mut Line<N>, answer: Result<Decision, Refusal>)
    requires { length line.old + 52 ≤ N }
    ensures said { line.new ≡ line.old ++ said (decision_read answer) }
    ensures short { length line.new ≤ length line.old + 52 }
{
    match answer {
        Ok(decision) => put_three(
            line,
            word_of(decision.verdict),
            decision.tried,
            decision.product,
        ),
        Err(refusal) => put_three(
            line,
            b" REFUSED",
            u64::from(refusal.number()),
            refusal.place() as u64,
        ),
    }
}
