// The lines of the night run (01, 'The night run'). The longest is that of a falsified job: 3 bytes, 21, 10, 21, 21 and a line
// feed are 77. That reading job by job gives the run whole is shown in proofs/Reading.
#![tactic(auto)]

ghost use Rattle.std.specs.Prelude.{◌≡◌, ◌≤◌, length};
ghost use Rattle.definitions.specs.Night.{TITLE, line, job_line, closing, budget_of};
ghost use Rattle.lines.specs.Words.{ending_word};

use crate::answer::put_answer;
use crate::line::Line;
use decision::decide;
use problem::head::last_node;

pub mod answer;
pub mod line;

pub fn title_line() -> Line<256>
    ensures { result ≡ line TITLE }
{
    let mut title = Line::new();
    title.put(b"EQP NIGHT 1\n");
    title
}

// The line of job k, whose last node is named. The lent buffers are of the least length that decide takes.
pub fn job_line(
    k: u64,
    budget: u64,
    problem: &[u8],
    work: &mut [u8; 21056],
    witness: &mut [u8; 206],
) -> Line<256>
    ensures { result ≡ job_line k budget problem.now }
{
    let answer = decide(budget, last_node(problem), problem, work, witness);
    let mut line = Line::new();
    line.put(b"JOB");
    line.put_number(k);
    put_answer(&mut line, answer);
    line.put(b"\n");
    line
}

// How the input ends: behind a job, or inside one.
#[derive(Clone, Copy)]
pub enum Ending {
    Whole,
    Cut,
}

// The last line: CUT where the input ends inside a job, and END otherwise.
pub fn closing_line(ending: Ending, jobs: u64) -> Line<256>
    ensures { result ≡ closing (ending_word ending) jobs }
{
    let mut line = Line::new();
    line.put(match ending {
        Ending::Whole => b"END",
        Ending::Cut => b"CUT",
    });
    line.put_number(jobs);
    line.put(b"\n");
    line
}

// The budget of a job, in its first eight bytes.
pub fn budget_of(head: &[u8]) -> u64
    requires { 8 ≤ length head.now }
    ensures { result ≡ budget_of head.now }
{
    u64::from_le_bytes([
        head[0], head[1], head[2], head[3], head[4], head[5], head[6], head[7],
    ])
}
