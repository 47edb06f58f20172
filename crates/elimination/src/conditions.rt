// The condition that two applications have equal arguments, and the choice that goes by it.
ghost use Rattle.std.specs.Prelude.{◌≡◌, ◌+◌, ◌<◌, ◌≤◌, length};
ghost use Rattle.definitions.specs.Lists.{snoc};
ghost use Rattle.definitions.specs.Problem.Node.{plain};
ghost use Rattle.definitions.specs.Elimination.{last, condition};
ghost use Rattle.problem.specs.Lays.{Lays};
ghost use Rattle.problem.specs.Ops.{byte_of};
ghost use Rattle.elimination.specs.Choice.{one_more};

use problem::ops::Op;
use problem::put::{Node, lay};

// One argument more: its equation, and then the "and" of what stood before with it.
fn lay_further(work: &mut [u8], count: usize, x: u16, y: u16)
    requires { (1 ≤ count) × (count + 2 ≤ 2632) × (21056 ≤ length work.old) }
    ensures { Lays work.old work.new count (count + 2) (one_more x y) }
{
    lay(work, count, Node::plain(Op::Equal, x, y, 0));
    let last = count as u16;
    lay(work, count + 1, Node::plain(Op::Both, last - 1, last, 0));
}

// The condition that the arguments xs and ys are equal in pairs: an equation for the first, and then the further ones.
fn lay_condition(work: &mut [u8], count: usize, xs: &[u16], ys: &[u16]) -> usize
    requires { (1 ≤ length xs.now) × (length xs.now ≤ 3) × (length ys.now ≡ length xs.now) × (count + 5 ≤ 2632) × (21056 ≤ length work.old) }
    ensures { Lays work.old work.new count result (λ t. condition t xs.now ys.now) × (count < result) × (result ≤ count + 5) }
{
    lay(work, count, Node::plain(Op::Equal, xs[0], ys[0], 0));
    let mut at = count + 1;
    for (x, y) in xs[1..].iter().zip(&ys[1..]) {
        lay_further(work, at, *x, *y);
        at += 2;
    }
    at
}

// The condition, and then the choice between the earlier application's own variable and what stood last.
pub fn lay_choice(
    work: &mut [u8],
    count: usize,
    choice: Op,
    xs: &[u16],
    ys: &[u16],
    own: u16,
) -> usize
    requires { (1 ≤ count) × (1 ≤ length xs.now) × (length xs.now ≤ 3) × (length ys.now ≡ length xs.now) × (count + 6 ≤ 2632) × (21056 ≤ length work.old) }
    ensures { Lays work.old work.new count result (λ t. snoc (condition t xs.now ys.now) (plain (byte_of choice) (last (condition t xs.now ys.now)) own (last t))) × (count < result) × (result ≤ count + 6) }
{
    let at = lay_condition(work, count, xs, ys);
    let node = Node::plain(choice, (at - 1) as u16, own, (count - 1) as u16);
    lay(work, at, node);
    at + 1
}
