// The error line of a refusal: its number, what it means, and where it stands in the text.
ghost use Rattle.std.specs.Prelude.{◌≡◌, ◌+◌, ◌≤◌, ◌++◌, length};
ghost use Rattle.definitions.specs.Solve.{meaning, has_place, standing_if, position_of, error_line};
ghost use Rattle.definitions.specs.Operations.Readings.{refusal_read};

use crate::places::position_of;
use definitions::Refusal;
use lines::line::Line;

// What a refusal means.
fn meaning(refusal: Refusal) -> &'static [u8]
    ensures words { result.now ≡ meaning (refusal_read refusal).number }
    ensures short { length result.now ≤ 44 }
{
    match refusal {
        Refusal::BadCounts => b"over 32 symbols, or over 256 nodes",
        Refusal::ManyFunctions => b"over 24 different applications of functions",
        Refusal::ManyPredicates => b"over 16 different applications of predicates",
        Refusal::ShortWork => b"the work buffer is too short",
        Refusal::ShortWitness => b"the witness buffer is too short",
        Refusal::BigProduct => b"over 10^18 places to try",
        Refusal::WrongToken(_) => b"the text cannot go on so",
        Refusal::TooDeep(_) => b"over 64 brackets of a term are open",
        Refusal::ShortProblem => b"the problem buffer is too short",
        _ => b"the problem breaks the format",
    }
}

// The line and the column of a refusal that has a place in the text.
fn put_standing(line: &mut Line<256>, text: &[u8], refusal: Refusal)
    requires { length line.old + 56 ≤ 256 }
    ensures standing { line.new ≡ line.old ++ standing_if (has_place (refusal_read refusal).number)
        (position_of text.now (refusal_read refusal).place) }
    ensures short { length line.new ≤ length line.old + 56 }
{
    if let Refusal::WrongToken(place) | Refusal::TooDeep(place) = refusal {
        let position = position_of(text, place);
        line.put(b", line");
        line.put_number(position.line as u64);
        line.put(b", column");
        line.put_number(position.column as u64);
    }
}

#[tactic(auto, unfolding(definitions::specs::Solve::error_line))]
pub fn error_line(text: &[u8], refusal: Refusal) -> Line<256>
    ensures { result ≡ error_line text.now (refusal_read refusal) }
{
    let mut line = Line::new();
    line.put(b"(error \"refusal");
    line.put_number(u64::from(refusal.number()));
    line.put(b": ");
    line.put(meaning(refusal));
    put_standing(&mut line, text, refusal);
    line.put(b"\")\n");
    line
}
