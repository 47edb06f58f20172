// The decision: `decide` lays the function-free table, measures the ranges, walks the places within the budget, and writes the
// witness where a place is false.
#![tactic(auto)]

ghost use Rattle.std.specs.Prelude.{◌≤◌, length};
ghost use Rattle.definitions.specs.Operations.Promises.{DecidePromise};
ghost use Rattle.decision.specs.Searched.{Laying, SearchIs};

use crate::start::odometer;
use crate::witness::write_witness;
use asked::{asked_in, counts};
use definitions::{Decision, Refusal, Verdict};
use elimination::laid::Laid;
use elimination::lay_table;
use problem::head::Problem;
use ranges::table::FreeTable;
use ranges::{Shape, Spans, measure};
use walk::walk;

pub mod start;
pub mod witness;

pub fn decide(
    budget: u64,
    root: usize,
    bytes: &[u8],
    work: &mut [u8],
    witness: &mut [u8],
) -> Result<Decision, Refusal>
    ensures { DecidePromise budget root bytes.now work.old witness.old result work.new witness.new }
{
    let mut room = [0; 2088];
    let problem = asked_in(root, bytes, &mut room)?;
    counts(&problem)?;
    if work.len() < 21056 {
        return Err(Refusal::ShortWork);
    }
    if witness.len() < 206 {
        return Err(Refusal::ShortWitness);
    }
    let mut laid = Laid::nothing();
    lay_table(&problem, work, &mut laid);
    let table = FreeTable {
        bytes: work,
        shape: Shape::from(&laid),
    };
    let Spans { tops, product } = measure(table);
    let product = product.ok_or(Refusal::BigProduct)?;
    let scope = Scope {
        problem: &problem,
        laid: &laid,
        table,
        tops,
        product,
        budget,
    };
    Ok(search(&scope, witness))
}

// What is known of a table that is laid and measured, before its places are searched, and how many of them may be tried.
#[derive(Clone, Copy)]
pub struct Scope<'a, 't> {
    pub problem: &'a Problem<'a>,
    pub laid: &'a Laid,
    pub table: FreeTable<'t>,
    pub tops: [u8; 24],
    pub product: u64,
    pub budget: u64,
}

// A small table is searched with a small array for its values: to clear the large one takes longer than most small jobs.
fn search(scope: &Scope<'_, '_>, witness: &mut [u8]) -> Decision
    requires { Laying scope.now × (206 ≤ length witness.old) }
    ensures { SearchIs scope.now.budget scope.now.problem.now witness.old result witness.new }
{
    if scope.table.shape.nodes <= 86 {
        search_with::<86>(scope, witness)
    } else {
        search_with::<2632>(scope, witness)
    }
}

// The places are tried in order, as many as the budget allows, with an array for the values of N nodes.
fn search_with<const N: usize>(scope: &Scope<'_, '_>, witness: &mut [u8]) -> Decision
    requires laying { Laying scope.now }
    requires room { 206 ≤ length witness.old }
    requires nodes { (scope.now.table.shape.nodes ≤ N) × (N ≤ 2632) }
    ensures { SearchIs scope.now.budget scope.now.problem.now witness.old result witness.new }
{
    let mut values = [0; N];
    let problem = scope.problem;
    let budget = scope.budget;
    let product = scope.product;
    let root = usize::from(scope.laid.images[problem.nodes - 1]);
    let start = odometer(scope.tops, scope.table.shape);
    let walked = walk(scope.table, root, start, budget, &mut values);
    let tried = walked.tried;
    let verdict = if walked.falsified {
        let written = write_witness(problem, scope.laid, &values, witness);
        Verdict::Falsified { written }
    } else if product <= budget {
        Verdict::Valid
    } else {
        Verdict::Stopped
    };
    Decision {
        verdict,
        tried,
        product,
    }
}
