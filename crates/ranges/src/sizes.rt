// Ranks, tops and the product.
ghost use Rattle.std.specs.Prelude.{ℕ, suc, ◌*◌, ◌<◌, ◌≤◌, ◌≡◌, map, get_or, replicate, length};
ghost use Rattle.std.specs.List.{count_by, range_with_len};
ghost use Rattle.definitions.specs.Lists.{below, product_of};
ghost use Rattle.definitions.specs.Ranges.{how_many, sizes, padded};
ghost use Rattle.ranges.specs.Sets.{in_set, rank_in};
ghost use Rattle.ranges.specs.Spans.{ProductIs};

use crate::components::has;

// The largest product that is given.
const LARGEST: u64 = 1_000_000_000_000_000_000;

// How many of the variables below n are in the set.
fn count_below(set: u32, n: usize) -> usize
    requires { n ≤ 32 }
    ensures { result ≡ count_by (in_set set) (range_with_len 0 n) }
{
    (0..n).filter(|v| has(set, *v)).count()
}

// The position of a variable in its component, by number, from 1.
fn rank(component: u32, v: usize) -> u8
    requires { v < 24 }
    ensures { result ≡ suc (how_many (in_set component) v) }
{
    1 + count_below(component, v) as u8
}

// The top of each variable is its rank; 0 past the last variable.
pub fn tops(components: [u32; 24], variables: usize) -> [u8; 24]
    requires { variables ≤ 24 }
    ensures { result ≡ padded (map (rank_in components) (below variables)) }
{
    let mut tops = [0; 24];
    for v in 0..variables {
        tops[v] = rank(components[v], v);
    }
    tops
}

// One factor more.
fn times(product: u64, size: u64) -> Option<u64>
    ensures { ProductIs (product * size) result }
{
    product.checked_mul(size).filter(|all| *all <= LARGEST)
}

// 2 for each truth variable.
fn doubled(product: u64, truths: usize) -> Option<u64>
    requires { product ≤ LARGEST }
    ensures { ProductIs (product * product_of (replicate truths 2)) result }
{
    let mut all = product;
    for _ in 0..truths {
        all = times(all, 2)?;
    }
    Some(all)
}

// All the tops multiplied, and 2 for each truth variable. There is none where it is more than the largest.
pub fn multiplied(tops: &[u8], truths: usize) -> Option<u64>
    requires { (v : ℕ) → v < length tops.now → 1 ≤ get_or tops.now v 0 }
    ensures { ProductIs (product_of (sizes tops.now truths)) result }
{
    let mut all = 1;
    for top in tops {
        all = times(all, u64::from(*top))?;
    }
    doubled(all, truths)
}
