// The components: for each variable the set of the variables that the links join it with.
ghost use Rattle.std.specs.Prelude.{◌<◌, ◌≤◌, ◌≡◌, length};
ghost use Rattle.ranges.specs.Sets.{LeavesAre, ClassesAre, Apart, UnionIs, Merged, in_set};
ghost use Rattle.ranges.specs.Table.{table_in};

use crate::table::FreeTable;
use problem::ops::Op;

// Variable v is in the set.
pub fn has(set: u32, v: usize) -> bool
    requires { v < 32 }
    ensures { result ≡ in_set set v }
{
    (set >> v) % 2 == 1
}

// Every variable is alone.
fn alone() -> [u32; 24]
    ensures { Apart result }
{
    let mut sets = [0; 24];
    for (v, set) in sets.iter_mut().enumerate() {
        *set = 1 << v;
    }
    sets
}

// The classes of the variables in a set, all in one.
fn union(sets: &[u32; 24], these: u32) -> u32
    ensures { UnionIs sets.now these 24 result }
{
    let mut all = 0;
    for (v, set) in sets.iter().enumerate() {
        if has(these, v) {
            all |= *set;
        }
    }
    all
}

// The classes of the variables in a set are made one, in place.
fn merge(sets: &mut [u32; 24], these: u32)
    ensures { Merged sets.old these sets.new }
{
    let all = union(sets, these);
    for (v, set) in sets.iter_mut().enumerate() {
        if has(all, v) {
            *set = all;
        }
    }
}

// Each equation links every left leaf with every right leaf, so it makes one class of all their classes.
pub fn classes(table: FreeTable<'_>, leaves: &[u32]) -> [u32; 24]
    requires leaves_are { LeavesAre (table_in table.bytes.now table.shape.nodes) table.shape.nodes leaves.now }
    requires room { table.shape.nodes ≤ length leaves.now }
    ensures { ClassesAre (table_in table.entry.bytes.now table.entry.shape.nodes) table.entry.shape.variables result × (length result ≡ 24) }
{
    let mut sets = alone();
    for k in 0..table.shape.nodes {
        let node = table.node(k);
        if Op::from(node.op) == Op::Equal {
            let left = leaves[usize::from(node.a)];
            let right = leaves[usize::from(node.b)];
            merge(&mut sets, left | right);
        }
    }
    sets
}
