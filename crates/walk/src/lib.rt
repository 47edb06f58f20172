// The walk: the places are looked at in order, from place 1 on, until one is false, the budget is used up, or none is left. They
// are worked out in blocks: the first digits, the fast ones, stand in the lanes of a block, and the odometer of the others, the
// slow ones, goes from block to block. The values of the nodes are kept from one block to the next, so that only nodes that depend
// on a digit that moved are worked out again.
#![tactic(auto)]

ghost use Rattle.std.specs.Prelude.{◌≡◌, ◌+◌, ◌*◌, ◌≤◌, min, length};
ghost use Rattle.definitions.specs.Lists.{product_of};
ghost use Rattle.walk.specs.Digits.{sizes_in};
ghost use Rattle.walk.specs.Keeping.{PlanWalked, Begins};
ghost use Rattle.walk.specs.Walked.{RootIn, Starts, WalkIs};

use crate::branches::{Branch, decode};
use crate::cells::{lay_lanes, lay_slow};
use crate::lanes::{cell_of, evaluate, first_false, values_of};
use crate::odometer::Odometer;
use crate::plan::Plan;
use crate::split::split;
use order::arrange;
use ranges::table::FreeTable;

pub mod branches;
pub mod cells;
pub mod lanes;
pub mod odometer;
pub mod plan;
pub mod split;

// How far the walk went: the places looked at, in order from place 1, and whether the last of them is false. Places of the same
// block past the last one looked at have been worked out too; they are not counted, and nothing depends on them.
#[derive(Clone, Copy)]
pub struct Walked {
    pub tried: u64,
    pub falsified: bool,
}

// As many places of the table are tried as the budget allows. Where the last is false, its values are left in values. A table is
// walked in arrays that are no larger than need be: to clear the largest takes longer than most small jobs.
pub fn walk(
    table: FreeTable<'_>,
    root: usize,
    start: Odometer,
    budget: u64,
    values: &mut [u8],
) -> Walked
    requires { RootIn table.bytes.now table.shape root × Starts table.shape start × (table.shape.nodes ≤ length values.old) }
    ensures { WalkIs table.entry.bytes.now table.entry.shape root start (min budget (product_of (sizes_in start))) values.new result }
{
    let nodes = table.shape.nodes;
    let parts = split(&start, nodes);
    let plan = Plan {
        table,
        root,
        start,
        parts,
    };
    let room = 16 * parts.chunks * (42 + nodes);
    if 86 < nodes {
        walk_sized::<2632, 57344>(&plan, budget, values)
    } else if room <= 4096 {
        walk_sized::<86, 4096>(&plan, budget, values)
    } else {
        walk_sized::<86, 16384>(&plan, budget, values)
    }
}

// The walk in arrays for so many nodes, whose cells take so many bytes at most.
fn walk_sized<const NODES: usize, const CELLS: usize>(
    plan: &Plan,
    budget: u64,
    values: &mut [u8],
) -> Walked
    requires nodes { (plan.now.table.shape.nodes ≤ NODES) × (NODES ≤ 2632) }
    requires cells { (16 * plan.now.parts.chunks * (42 + plan.now.table.shape.nodes) ≤ CELLS) × (CELLS ≤ 57344) }
    requires values { plan.now.table.shape.nodes ≤ length values.old }
    ensures { PlanWalked plan.now budget values.new result }
{
    let nodes = plan.table.shape.nodes;
    let mut positions = [0; NODES];
    let mut branches = [Branch::FALSE; NODES];
    let mut cells = [0; CELLS];
    let positions = &mut positions[..nodes];
    let branches = &mut branches[..nodes];
    let begun = begin(plan, positions, branches, &mut cells);
    walk_on(
        plan, &begun, budget, positions, branches, &mut cells, values,
    )
}

// What the walk begins with: where the tail of each digit begins, the slow digits at the first block, and where the lanes of the
// root's cell begin.
#[derive(Clone, Copy)]
pub struct Begun {
    pub starts: [u16; 65],
    pub slow: Odometer,
    pub root: usize,
}

// The nodes are put in order and made branches, and the cells of the digits are laid for the first block. The three arrays stay
// apart: the walk then reads two of them and writes the third.
fn begin(plan: &Plan, positions: &mut [u16], branches: &mut [Branch], cells: &mut [u8]) -> Begun
    requires { (length positions.old ≡ plan.now.table.shape.nodes) × (length branches.old ≡ plan.now.table.shape.nodes) × (16 * plan.now.parts.chunks * (42 + plan.now.table.shape.nodes) ≤ length cells.old) }
    ensures { Begins plan.now positions.new branches.new cells.new result }
{
    let table = plan.table;
    let parts = plan.parts;
    let starts = arrange(table, parts.fast, &plan.start.sizes, positions);
    decode(table, parts.chunks, positions, branches);
    let variables = table.shape.variables;
    lay_lanes(variables, parts, &plan.start, cells);
    let slow = plan.start.slow(parts.fast);
    lay_slow(variables, parts, &slow.digits[..slow.count], cells);
    let root = cell_of(positions[plan.root], parts.chunks);
    Begun { starts, slow, root }
}

// The walk from block to block. After every step the kept values equal values worked out afresh.
fn walk_on(
    plan: &Plan,
    begun: &Begun,
    budget: u64,
    positions: &[u16],
    branches: &[Branch],
    cells: &mut [u8],
    values: &mut [u8],
) -> Walked
    requires { Begins plan.now positions.now branches.now cells.old begun.now × (length positions.now ≡ plan.now.table.shape.nodes) × (length branches.now ≡ plan.now.table.shape.nodes) × (16 * plan.now.parts.chunks * (42 + plan.now.table.shape.nodes) ≤ length cells.old) × (plan.now.table.shape.nodes ≤ length values.old) }
    ensures { PlanWalked plan.now budget values.new result }
{
    let parts = plan.parts;
    let variables = plan.table.shape.variables;
    let mut odometer = begun.slow;
    let mut tried = 0;
    let mut from = 0;
    // No `for`: a block has as many places as its lanes, or as are left.
    while tried < budget {
        evaluate(branches, from, parts.chunks, cells);
        let many = lanes_in(budget - tried, parts.lanes);
        if let Some(lane) = first_false(&cells[begun.root..begun.root + many]) {
            values_of(cells, positions, parts.chunks, lane, values);
            return Walked {
                tried: tried + lane as u64 + 1,
                falsified: true,
            };
        }
        tried += many as u64;
        let step = odometer.next();
        odometer = step.odometer;
        let Some(turned) = step.turned else {
            return Walked {
                tried,
                falsified: false,
            };
        };
        lay_slow(variables, parts, &odometer.digits[..turned + 1], cells);
        from = usize::from(begun.starts[parts.fast + turned]);
    }
    Walked {
        tried,
        falsified: false,
    }
}

// As many lanes as there are places left, and at most all.
fn lanes_in(left: u64, lanes: usize) -> usize
    ensures { result ≡ min left lanes }
{
    left.min(lanes as u64) as usize
}
