// The exports of the static library: each is the call of the crate host of its name, with that call's promise.
#![tactic(auto)]

ghost use Rattle.definitions.specs.Operations.Promises.{HostPromise, HostReadPromise};

#[unsafe(no_mangle)]
pub extern "C" fn eqp_decide(
    budget: u64,
    root: usize,
    problem: &[u8],
    work: &mut [u8],
    witness: &mut [u8],
    answer: &mut [u8],
) -> u32
    ensures { HostPromise budget root problem.now work.old witness.old answer.old result work.new witness.new answer.new }
{
    host::eqp_decide(budget, root, problem, work, witness, answer)
}

#[unsafe(no_mangle)]
pub extern "C" fn eqp_read(text: &[u8], problem: &mut [u8], reply: &mut [u8]) -> u32
    ensures { HostReadPromise text.now problem.old reply.old result problem.new reply.new }
{
    host::eqp_read(text, problem, reply)
}
