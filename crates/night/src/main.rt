// The night run: jobs from standard input, a line for each as soon as it is decided (01, 'The night run'). What each line is
// has its contract in the crate lines, which also shows that reading in this order gives the definition's output: no contract
// can speak of the bytes read and written here. A write that fails ends the run; a read that fails counts as the end of the
// input.
#![tactic(auto)]

use lines::Ending;
use lines::line::Line;
use problem::bytes::two_at;
use reading::fill;
use std::io;
use std::io::Read;

// Writes a line whole at once.
fn write_line(rt: &impl Print, line: &Line<256>) -> io::Result<()> {
    rt.write_all(line.as_bytes())
}

// Decides job k and writes its line.
fn answer(rt: &impl Print, k: u64, budget: u64, problem: &[u8]) -> io::Result<()> {
    let mut work = [0u8; 21056];
    let mut witness = [0u8; 206];
    let line = lines::job_line(k, budget, problem, &mut work, &mut witness);
    write_line(rt, &line)
}

// The rest of job k: its problem bytes fill the lent slice. Where they do not, the input is cut.
fn read_problem<R: Read>(
    rt: &impl Print,
    input: &mut R,
    k: u64,
    budget: u64,
    problem: &mut [u8],
) -> io::Result<Option<Ending>> {
    if fill(input, problem) < problem.len() {
        return Ok(Some(Ending::Cut));
    }
    answer(rt, k, budget, problem)?;
    Ok(None)
}

// Reads job k and answers it, or says how the input ends. No byte past the job is waited for.
fn one_job<R: Read>(rt: &impl Print, input: &mut R, k: u64) -> io::Result<Option<Ending>> {
    let mut head = [0u8; 10];
    match fill(input, &mut head) {
        10 => {
            let budget = lines::budget_of(&head);
            let length = two_at(&head, 8);
            let mut room = [0u8; 65536];
            read_problem(rt, input, k, budget, &mut room[..length])
        }
        0 => Ok(Some(Ending::Whole)),
        _ => Ok(Some(Ending::Cut)),
    }
}

// Jobs are numbered from 1. A loop has to end, and nothing says that the input does: no run reads so many jobs.
fn main(rt: HostRuntime) -> io::Result<()> {
    write_line(&rt, &lines::title_line())?;
    let mut input = rt.reader();
    for jobs in 0..u64::MAX {
        if let Some(ending) = one_job(&rt, &mut input, jobs + 1)? {
            return write_line(&rt, &lines::closing_line(ending, jobs));
        }
    }
    Ok(())
}
