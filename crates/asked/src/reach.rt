// The nodes that a root reaches: itself, and the operands in use of what it reaches. Operands are earlier nodes, so one walk from the
// root down finds them all.
ghost use Rattle.std.specs.Prelude.{◌≡◌, ◌<◌, ◌≤◌, replicate};
ghost use Rattle.definitions.specs.Problem.Check.{node_count};
ghost use Rattle.theorems.proofs.Accepted.{Layout};
ghost use Rattle.asked.specs.Reached.{operands_at, Marked, Reaching};

use problem::head::Problem;

// The operands in use of node k are marked. That the table is well formed (`Layout`) is asked here, below and in trim, and is no invariant of
// `Problem`: conditions 6 and 7 are tested on a `Problem`, and a second type would need all its methods again.
fn mark_operands(problem: &Problem<'_>, k: usize, marks: &mut [u8; 256])
    requires { Layout problem.now × (k < node_count problem.now) }
    ensures { Marked (operands_at problem.now k) marks.old marks.new }
{
    let node = problem.node(k);
    for operand in &node.operands()[..problem.in_use(node)] {
        marks[usize::from(*operand)] = 1;
    }
}

// Marks what the root reaches, and counts it.
pub fn reach(root: usize, problem: &Problem<'_>, marks: &mut [u8; 256]) -> usize
    requires { Layout problem.now × (root < node_count problem.now) × (marks.old ≡ replicate 256 0) }
    ensures { Reaching problem.now root marks.new result }
{
    marks[root] = 1;
    let mut count = 0;
    for k in (0..root + 1).rev() {
        if marks[k] == 1 {
            count += 1;
            mark_operands(problem, k, marks);
        }
    }
    count
}
