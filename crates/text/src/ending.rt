// What is done when a text is read out: what joins the asserts, the one negation, the limits, and the problem written.
ghost use Rattle.std.specs.Prelude.{ℕ, ◌≤◌, List, length};
ghost use Rattle.definitions.specs.Operations.Promises.{ReadPromise};
ghost use Rattle.terms.specs.Laying.{Performs};
ghost use Rattle.terms.specs.Scripts.{joined_roots};
ghost use Rattle.terms.specs.declared.declared.Shelved.{Shelved};
ghost use Rattle.text.specs.Scripted.{ReadOut};
ghost use Rattle.text.specs.Ending.{Deliverable, Delivered};

use crate::scripts::Script;
use asked::counts;
use definitions::Refusal;
use problem::bytes::put;
use problem::head::Problem;
use problem::ops::Op;
use problem::put::Node;
use terms::nodes::Table;
use terms::whole::put_problem;

// What joins the asserts; no assert counts as true.
fn join(roots: &[u8], table: &mut Table) -> u8
    ensures { Performs (joined_roots roots.now) table.old result table.new }
{
    let Some(first) = roots.first() else {
        return table.pair(Op::Verum, 0, 0);
    };
    let mut joined = *first;
    for i in 1..roots.len() {
        joined = table.pair(Op::Both, joined, roots[i]);
    }
    joined
}

// The problem of these symbols and nodes is written where there was room for all nodes, and 9 and 10 do not refuse it.
fn deliver(problem: &mut [u8], symbols: &[u8], table: &Table) -> Result<usize, Refusal>
    requires { Deliverable problem.old symbols.now table.now }
    ensures { Delivered symbols.now table.now problem.old result problem.new }
{
    let nodes = table.count().ok_or(Refusal::BadCounts)?;
    let mut whole = [0u8; 2088];
    put_problem(&mut whole, symbols, table);
    let written = 8 + symbols.len() + 8 * nodes;
    let bytes = &whole[..written];
    counts(&Problem {
        bytes,
        symbols: symbols.len(),
        nodes,
    })?;
    put(problem, bytes);
    Ok(written)
}

// A text that is read out becomes a problem, or is refused by 4, 9 or 10. The one negation comes last: it is appended and not asked
// for.
pub fn end(problem: &mut [u8], script: &mut Script<'_>) -> Result<usize, Refusal>
    requires { 2088 ≤ length problem.old }
    ensures { (text : List ℕ) (shelf : List Shelved) → ReadOut text shelf script.old → ReadPromise text problem.old result problem.new }
{
    let joined = join(script.roots.as_slice(), &mut script.table);
    let negation = Node::plain(Op::Negate, u16::from(joined), 0, 0);
    script.table.append(negation);
    deliver(problem, script.symbols.as_slice(), &script.table)
}
