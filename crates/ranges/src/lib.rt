// The ranges: leaves, components, ranks and tops of the function-free table, and the product of all range sizes.
#![tactic(auto)]

ghost use Rattle.std.specs.Prelude.{◌≤◌, ◌≡◌, length};
ghost use Rattle.definitions.specs.Operations.Promises.{RangesPromise};
ghost use Rattle.ranges.specs.Table.{shape_of};
ghost use Rattle.ranges.specs.Spans.{SpansAre};

use crate::components::classes;
use crate::leaves::leaf_sets;
use crate::sizes::{multiplied, tops};
use crate::table::FreeTable;
use asked::{asked_in, counts};
use definitions::{Ranges, Refusal};
use elimination::laid::Laid;
use elimination::lay_table;

pub mod components;
pub mod leaves;
pub mod sizes;
pub mod table;

// A table's counts.
#[derive(Clone, Copy)]
pub struct Shape {
    pub nodes: usize,
    pub variables: usize,
    pub truths: usize,
}

pub fn ranges(root: usize, bytes: &[u8], work: &mut [u8]) -> Result<Ranges, Refusal>
    ensures { RangesPromise root bytes.now work.old result work.new }
{
    let mut room = [0; 2088];
    let problem = asked_in(root, bytes, &mut room)?;
    let truths = counts(&problem)?.predicates;
    if work.len() < 21056 {
        return Err(Refusal::ShortWork);
    }
    let mut all = Laid::nothing();
    lay_table(&problem, work, &mut all);
    let spans = measure(FreeTable {
        bytes: work,
        shape: Shape::from(&all),
    });
    let product = spans.product.ok_or(Refusal::BigProduct)?;
    Ok(Ranges {
        tops: spans.tops,
        truths,
        product,
    })
}

// The counts of a table that elimination has laid: a variable for each distinct application of a function, and a truth variable
// for each of a predicate.
impl From<&Laid> for Shape {
    ghost from_gives = { λ all shape. shape ≡ shape_of all.now };

    fn from(all: &Laid) -> Self {
        Shape {
            nodes: all.nodes,
            variables: all.functions,
            truths: all.predicates,
        }
    }
}

// The tops and the product of a table.
#[derive(Clone, Copy)]
pub struct Spans {
    pub tops: [u8; 24],
    pub product: Option<u64>,
}

// A small table is measured in a small array: to clear the large one takes longer than most small jobs.
pub fn measure(table: FreeTable<'_>) -> Spans
    ensures { SpansAre table.entry.bytes.now table.entry.shape result }
{
    match table.shape.nodes {
        0..=86 => measure_with::<86>(table),
        87..=512 => measure_with::<512>(table),
        _ => measure_with::<2632>(table),
    }
}

// The tops and the product, by way of an array that has room for the leaves of N nodes.
fn measure_with<const N: usize>(table: FreeTable<'_>) -> Spans
    requires room { table.shape.nodes ≤ N }
    requires small { N ≤ 2632 }
    ensures { SpansAre table.entry.bytes.now table.entry.shape result }
{
    let mut sets = [0; N];
    leaf_sets(table, &mut sets);
    let joined = classes(table, &sets);
    let tops = tops(joined, table.shape.variables);
    Spans {
        tops,
        product: multiplied(&tops[..table.shape.variables], table.shape.truths),
    }
}
