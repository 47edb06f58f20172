// What the program solve prints (02, E1, 'The host and the program'), line by line. A declared name is given by itself, since it
// may be long. That the pieces in this order are the definition's output is shown in proofs/Pieces.
#![tactic(auto)]

ghost use Rattle.std.specs.Prelude.{◌≡◌, ◌≤◌, length};
ghost use Rattle.definitions.specs.Solve.{too_long, bad_budget, answer_lines, verdict_lines};
ghost use Rattle.definitions.specs.Operations.Answers.{isStopped};
ghost use Rattle.definitions.specs.Operations.Readings.{verdict_read, decision_read};

use crate::errors::error_line;
use definitions::{Decision, Refusal, Verdict};
use lines::line::Line;

pub mod budget;
pub mod errors;
pub mod names;
pub mod places;
pub mod rows;

// The verdict's line, with the comment line of unknown; or the error line of a refusal.
#[tactic(auto, unfolding(definitions::specs::Solve::answer_lines))]
pub fn answer_lines(text: &[u8], answer: Result<Decision, Refusal>) -> Line<256>
    ensures { result ≡ answer_lines text.now (decision_read answer) }
{
    match answer {
        Ok(decision) => verdict_lines(decision),
        Err(refusal) => error_line(text, refusal),
    }
}

// The verdict's line.
fn verdict_lines(decision: Decision) -> Line<256>
    ensures { result ≡ verdict_lines (verdict_read decision.verdict) decision.tried decision.product }
{
    match decision.verdict {
        Verdict::Valid => fixed_line(b"unsat\n"),
        Verdict::Falsified { .. } => fixed_line(b"sat\n"),
        Verdict::Stopped => unknown_lines(decision.tried, decision.product),
    }
}

// How many places were tried, and of how many.
fn unknown_lines(tried: u64, product: u64) -> Line<256>
    ensures { result ≡ verdict_lines isStopped tried product }
{
    let mut line = Line::new();
    line.put(b"unknown\n; tried");
    line.put_number(tried);
    line.put(b" of");
    line.put_number(product);
    line.put(b"\n");
    line
}

// The error lines of the program itself.
pub fn too_long_line() -> Line<256>
    ensures { result ≡ too_long }
{
    fixed_line(b"(error \"the text is over 1048576 bytes\")\n")
}

pub fn budget_line() -> Line<256>
    ensures { result ≡ bad_budget }
{
    fixed_line(b"(error \"the budget is not a number of at most 19 digits\")\n")
}

fn fixed_line(bytes: &[u8]) -> Line<256>
    requires { length bytes.now ≤ 256 }
    ensures { result ≡ bytes.now }
{
    let mut line = Line::new();
    line.put(bytes);
    line
}
