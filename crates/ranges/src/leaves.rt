// The leaves of each node of the table, as a set of variables: bit v for variable v.
ghost use Rattle.std.specs.Prelude.{◌<◌, ◌≤◌, length};
ghost use Rattle.ranges.specs.Sets.{LeafSet, LeavesAre};
ghost use Rattle.ranges.specs.Table.{table_in};

use crate::table::FreeTable;
use problem::ops::Op;

// The leaves of a variable node are itself, of a term choice those of its second and third operands.
fn leaf_set(table: FreeTable<'_>, k: usize, sets: &[u32]) -> u32
    requires within { k < table.shape.nodes }
    requires room { table.shape.nodes ≤ length sets.now }
    requires before { LeavesAre (table_in table.bytes.now table.shape.nodes) k sets.now }
    ensures { LeafSet (table_in table.entry.bytes.now table.entry.shape.nodes) k result }
{
    let node = table.node(k);
    let b = usize::from(node.b);
    let c = usize::from(node.c);
    match Op::from(node.op) {
        Op::Apply => 1 << node.symbol,
        Op::Choose => sets[b] | sets[c],
        _ => 0,
    }
}

// The leaves of every node, in the table's order: a node's operands stand before it.
pub fn leaf_sets(table: FreeTable<'_>, sets: &mut [u32])
    requires { table.shape.nodes ≤ length sets.old }
    ensures { LeavesAre (table_in table.entry.bytes.now table.entry.shape.nodes) table.entry.shape.nodes sets.new }
{
    for k in 0..table.shape.nodes {
        sets[k] = leaf_set(table, k, sets);
    }
}
