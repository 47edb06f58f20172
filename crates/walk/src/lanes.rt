// The lanes of the cells. A branch does the same in every lane, with no jump, so that a processor does sixteen in a few steps.
ghost use Rattle.std.specs.Prelude.{◌+◌, ◌*◌, ◌≤◌, ◌<◌, ◌≡◌, ◌==◌, length, get_or, position};
ghost use Rattle.walk.specs.Cells.{chosen, AllReady, Picked, Chosen, SolvedFrom, LaneCopied};
ghost use Rattle.walk.specs.Reading.{InOrder, positions_in};

use crate::branches::Branch;

// One of two values.
fn taken(x: u8, y: u8, same: u8, apart: u8) -> u8
    ensures { result ≡ chosen x y same apart }
{
    if x == y { same } else { apart }
}

// What a branch takes in sixteen lanes, from where those of its four cells begin.
fn pick(cells: &[u8], left: usize, right: usize, same: usize, apart: usize) -> [u8; 16]
    requires { (left + 16 ≤ length cells.now) × (right + 16 ≤ length cells.now) × (same + 16 ≤ length cells.now) × (apart + 16 ≤ length cells.now) }
    ensures { Picked cells.now left right same apart result }
{
    let mut lanes = [0; 16];
    // An index into four places of one array: this is the hot loop, which each branch runs for each chunk of each block.
    for l in 0..16 {
        lanes[l] = taken(
            cells[left + l],
            cells[right + l],
            cells[same + l],
            cells[apart + l],
        );
    }
    lanes
}

// One position in all its lanes. The branch is read once, and not for each chunk: large tables take less time by that.
fn solve(cells: &mut [u8], at: usize, branch: &Branch, chunks: usize)
    requires { (chunks ≤ 8) × (at + 16 * chunks ≤ length cells.old) × (branch.now.left + 16 * chunks ≤ at) × (branch.now.right + 16 * chunks ≤ at) × (branch.now.same + 16 * chunks ≤ at) × (branch.now.apart + 16 * chunks ≤ at) }
    ensures { Chosen (16 * chunks) at branch.now cells.old cells.new }
{
    let left = usize::from(branch.left);
    let right = usize::from(branch.right);
    let same = usize::from(branch.same);
    let apart = usize::from(branch.apart);
    for h in 0..chunks {
        let off = 16 * h;
        let lanes = pick(cells, left + off, right + off, same + off, apart + off);
        cells[at + off..at + off + 16].copy_from_slice(&lanes);
    }
}

// The positions from one on, each from the cells before it.
pub fn evaluate(branches: &[Branch], from: usize, chunks: usize, cells: &mut [u8])
    requires { (from ≤ length branches.now) × (length branches.now ≤ 2632) × (chunks ≤ 8) × (16 * chunks * (42 + length branches.now) ≤ length cells.old) × AllReady (16 * chunks) branches.now }
    ensures { SolvedFrom (16 * chunks) branches.now from cells.old cells.new }
{
    let lanes = 16 * chunks;
    let mut at = lanes * (42 + from);
    for branch in &branches[from..] {
        solve(cells, at, branch, chunks);
        at += lanes;
    }
}

// The first of the lanes that is 0. Mostly there is none, and to test them all at once takes less time than to search them.
pub fn first_false(lanes: &[u8]) -> Option<usize>
    requires { length lanes.now ≤ 128 }
    ensures { result ≡ position (λ x. x == 0) lanes.now }
{
    if !lanes.contains(&0) {
        return None;
    }
    (0..lanes.len()).find(|lane| lanes[*lane] == 0)
}

// Where the lanes of the cell of the node at a position begin.
pub fn cell_of(position: u16, chunks: usize) -> usize
    requires { (position < 2632) × (chunks ≤ 8) }
    ensures { result ≡ 16 * chunks * (42 + position) }
{
    16 * chunks * (42 + usize::from(position))
}

// The values of the nodes in one lane.
pub fn values_of(cells: &[u8], positions: &[u16], chunks: usize, lane: usize, values: &mut [u8])
    requires { InOrder positions.now × (length positions.now ≤ 2632) × (chunks ≤ 8) × (16 * chunks * (42 + length positions.now) ≤ length cells.now) × (length positions.now ≤ length values.old) × (lane < 16 * chunks) }
    ensures { LaneCopied (16 * chunks) (positions_in positions.now) cells.now lane (length positions.now) values.new }
{
    for (k, position) in positions.iter().enumerate() {
        values[k] = cells[cell_of(*position, chunks) + lane];
    }
}
