// The digits in two parts: the first ones, the fast, stand in the lanes of a block, and the odometer of the rest, the slow, goes
// from block to block.
ghost use Rattle.std.specs.Prelude.{◌≡◌, ◌+◌, ◌*◌, ◌≤◌};
ghost use Rattle.walk.specs.Digits.{PartsAre};

use crate::odometer::Odometer;

// How many digits are fast, a lane for each of their assignments, and the chunks of sixteen lanes that a cell has.
#[derive(Clone, Copy)]
pub struct Parts {
    pub fast: usize,
    pub lanes: usize,
    pub chunks: usize,
}

impl Parts {
    fn new(fast: usize, lanes: usize) -> Parts
        requires { lanes ≤ 128 }
        ensures { (result.fast ≡ fast) × (result.lanes ≡ lanes) × (lanes ≤ 16 * result.chunks) × (16 * result.chunks ≤ lanes + 15) }
    {
        Parts {
            fast,
            lanes,
            chunks: lanes.div_ceil(16),
        }
    }
}

// The most chunks that a cell may have: 128 lanes, and fewer where all cells would take more than 57,344 bytes.
fn most_chunks(nodes: usize) -> usize
    requires { nodes ≤ 2632 }
    ensures { (1 ≤ result) × (result ≤ 8) × (result * (42 + nodes) ≤ 3584) }
{
    (3584 / (42 + nodes)).min(8)
}

// The first digits are fast, as many as have no more assignments than there are lanes.
pub fn split(all: &Odometer, nodes: usize) -> Parts
    requires { nodes ≤ 2632 }
    ensures { PartsAre all.now nodes result }
{
    let most = 16 * most_chunks(nodes);
    let mut lanes = 1;
    for (fast, size) in all.sizes[..all.count].iter().enumerate() {
        let more = lanes * usize::from(*size);
        if most < more {
            return Parts::new(fast, lanes);
        }
        lanes = more;
    }
    Parts::new(all.count, lanes)
}
