// The problem asked, where it is a part of the table: the reached nodes in order, with their operands renumbered.
ghost use Rattle.std.specs.Prelude.{◌≡◌, ◌+◌, ◌*◌, ◌<◌, ◌≤◌, length, get_or, true, cond};
ghost use Rattle.definitions.specs.Lists.{snoc};
ghost use Rattle.definitions.specs.Problem.Node.{table_bytes};
ghost use Rattle.definitions.specs.Problem.Check.{node_count};
ghost use Rattle.definitions.specs.Problem.Asked.{asked};
ghost use Rattle.definitions.specs.Operations.Buffers.{over};
ghost use Rattle.theorems.proofs.Accepted.{Layout};
ghost use Rattle.theorems.proofs.Asked.Formed.{Named};
ghost use Rattle.problem.specs.Lays.{Lays};
ghost use Rattle.asked.specs.Reached.{reached_of, MarksAre};
ghost use Rattle.asked.specs.Trimming.{renamed, trim_of};

use crate::reach::reach;
use problem::head::Problem;
use problem::put::{Node, lay, put_front};

// The number of an operand, and 0 where the field is not in use.
fn renumbered(numbers: &[u8; 256], used: bool, operand: u16) -> u16
    requires { used ≡ true → operand < 256 }
    ensures { result ≡ cond used (get_or numbers.now operand 0) 0 }
{
    if used {
        u16::from(numbers[usize::from(operand)])
    } else {
        0
    }
}

// Node k with its operands renumbered, after the count nodes already laid.
fn lay_renumbered(
    problem: &Problem<'_>,
    k: usize,
    numbers: &[u8; 256],
    nodes: &mut [u8],
    count: usize,
)
    requires { Layout problem.now × (k < node_count problem.now) × (8 * count + 8 ≤ length nodes.old) × (count < 256) }
    ensures { Lays nodes.old nodes.new count (count + 1) (λ t. snoc t (renamed numbers.now problem.now k)) }
{
    let node = problem.node(k);
    let used = problem.in_use(node);
    let renamed = Node {
        a: renumbered(numbers, 0 < used, node.a),
        b: renumbered(numbers, 1 < used, node.b),
        c: renumbered(numbers, 2 < used, node.c),
        ..node
    };
    lay(nodes, count, renamed);
}

// The reached nodes, in order: the number of each node is how many reached ones stand before it.
fn lay_reached(root: usize, problem: &Problem<'_>, marks: &[u8; 256], nodes: &mut [u8])
    requires { Named problem.now root × MarksAre (reached_of problem.now root) marks.now × (2048 ≤ length nodes.old) }
    ensures { nodes.new ≡ over (table_bytes (trim_of problem.now root)) nodes.old }
{
    let mut numbers = [0u8; 256];
    let mut count = 0;
    for k in 0..root + 1 {
        numbers[k] = count as u8;
        let mark = marks[k];
        if mark == 1 {
            lay_renumbered(problem, k, &numbers, nodes, count);
            count += 1;
        }
    }
}

// The problem asked goes to the start of a lent buffer: the front with the count of the reached nodes, and these nodes.
pub fn trim<'a>(root: usize, problem: &Problem<'_>, room: &'a mut [u8]) -> Problem<'a>
    requires { Named problem.now root × (2088 ≤ length room.old) }
    ensures { result ≡ asked problem.now root }
{
    let mut marks = [0u8; 256];
    let count = reach(root, problem, &mut marks);
    let symbols = problem.symbols;
    put_front(room, problem.symbol_bytes(), count);
    lay_reached(root, problem, &marks, &mut room[8 + symbols..]);
    Problem {
        bytes: &room[..8 + symbols + 8 * count],
        symbols,
        nodes: count,
    }
}
