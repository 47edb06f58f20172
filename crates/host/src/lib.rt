// The calls from C, which the static library of the crate host_c exports: `eqp_decide` decides a named root of a problem, `eqp_read`
// reads one from a text, and both lay the answer down in 32 bytes, low byte first.
#![tactic(auto)]

ghost use Rattle.std.specs.Prelude.{◌≡◌, ◌≤◌, length};
ghost use Rattle.definitions.specs.Operations.Host.{answer_bytes, read_bytes, thirty_two};
ghost use Rattle.definitions.specs.Operations.Buffers.{over};
ghost use Rattle.definitions.specs.Operations.Readings.{refusal_read, decision_read, reading_read};
ghost use Rattle.definitions.specs.Operations.Promises.{HostPromise, HostReadPromise};
ghost use Rattle.host.specs.Replies.{reply_bytes};

use decision::decide;
use definitions::{Decision, Refusal, Verdict};
use text::read;

// The six numbers of the answer.
#[derive(Clone, Copy, Default)]
struct Reply {
    verdict: u8,
    refusal: u8,
    written: usize,
    place: usize,
    tried: u64,
    product: u64,
}

#[tactic(auto, unfolding(definitions::specs::Operations::Host::host_outcome))]
pub fn eqp_decide(
    budget: u64,
    root: usize,
    problem: &[u8],
    work: &mut [u8],
    witness: &mut [u8],
    answer: &mut [u8],
) -> u32
    ensures { HostPromise budget root problem.now work.old witness.old answer.old result work.new witness.new answer.new }
{
    if answer.len() < 32 {
        return 0;
    }
    let decision = decide(budget, root, problem, work, witness);
    Reply::from(decision).put(answer);
    1
}

// A text's problem goes to its buffer. Where the answer buffer is short, nothing is read.
#[tactic(auto, unfolding(definitions::specs::Operations::Host::read_outcome))]
pub fn eqp_read(text: &[u8], problem: &mut [u8], reply: &mut [u8]) -> u32
    ensures { HostReadPromise text.now problem.old reply.old result problem.new reply.new }
{
    if reply.len() < 32 {
        return 0;
    }
    let reading = read(text, problem);
    Reply::from(reading).put(reply);
    1
}

impl Reply {
    // The 32 bytes; the four after the refusal's number are 0.
    fn bytes(self) -> [u8; 32]
        ensures { result ≡ reply_bytes self }
    {
        let mut bytes = [0; 32];
        bytes[0] = self.verdict;
        bytes[1] = self.refusal;
        bytes[6..8].copy_from_slice(&self.written.to_le_bytes()[..2]);
        bytes[8..16].copy_from_slice(&self.place.to_le_bytes());
        bytes[16..24].copy_from_slice(&self.tried.to_le_bytes());
        bytes[24..].copy_from_slice(&self.product.to_le_bytes());
        bytes
    }

    // They go to the start of the answer buffer.
    fn put(self, answer: &mut [u8])
        requires { 32 ≤ length answer.old }
        ensures { answer.new ≡ over (reply_bytes self) answer.old }
    {
        answer[..32].copy_from_slice(&self.bytes());
    }
}

// The problem's length stands where the count of tried places does in a decision.
impl From<Result<usize, Refusal>> for Reply {
    ghost from_gives = { λ reading reply. reply_bytes reply ≡ read_bytes (reading_read reading) };

    fn from(reading: Result<usize, Refusal>) -> Reply {
        match reading {
            Ok(written) => Reply {
                verdict: 10,
                tried: written as u64,
                ..Reply::default()
            },
            Err(refusal) => Reply::from(refusal),
        }
    }
}

// An answer has no refusal.
impl From<Result<Decision, Refusal>> for Reply {
    ghost from_gives = { λ decision reply. reply_bytes reply ≡ answer_bytes (decision_read decision) };

    fn from(decision: Result<Decision, Refusal>) -> Reply {
        match decision {
            Ok(
                Decision {
                    verdict,
                    tried,
                    product,
                },
            ) => {
                let (verdict, written) = match verdict {
                    Verdict::Valid => (1, 0),
                    Verdict::Falsified { written } => (2, written),
                    Verdict::Stopped => (3, 0),
                };
                Reply {
                    verdict,
                    written,
                    tried,
                    product,
                    ..Reply::default()
                }
            }
            Err(refusal) => Reply::from(refusal),
        }
    }
}

// A refusal has no values.
impl From<Refusal> for Reply {
    ghost from_gives = { λ refusal reply. reply_bytes reply ≡ thirty_two 0 (refusal_read refusal).number 0 (refusal_read refusal).place 0 0 };

    fn from(refusal: Refusal) -> Reply {
        Reply {
            refusal: refusal.number(),
            place: refusal.place(),
            ..Reply::default()
        }
    }
}
