// The bytes of a problem, from its symbol bytes and its table of nodes.
ghost use Rattle.std.specs.Prelude.{◌≡◌, ◌≤◌, length};
ghost use Rattle.definitions.specs.Problem.Node.{problem_bytes};
ghost use Rattle.definitions.specs.Operations.Buffers.{over};
ghost use Rattle.terms.specs.Laying.{standing};

use crate::nodes::Table;
use problem::put::put_front;

pub fn put_problem(whole: &mut [u8], symbols: &[u8], table: &Table)
    requires { (2088 ≤ length whole.old) × (length symbols.now ≤ 32) }
    ensures { whole.new ≡ over (problem_bytes symbols.now (standing table.now)) whole.old }
{
    let count = table.count().unwrap_or(0);
    put_front(whole, symbols, count);
    table.put(&mut whole[8 + symbols.len()..]);
}
