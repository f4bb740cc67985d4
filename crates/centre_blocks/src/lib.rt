// The nearest of centres that are laid out in blocks of sixteen: a vector is compared with sixteen
// centres side by side.
#![tactic(auto)]

pub mod lanes;
pub mod layout;

ghost use Rattle.std.specs.Prelude.{◌+◌, ◌*◌, ◌/◌, ◌≤◌, ◌<◌, ◌^◌, ◌≡◌, List, length, Float};
ghost use Rattle.cluster.specs.Clusters.{nearest};
ghost use Rattle.centre_blocks.specs.Blocks.{four_list, lanes, centres_in};
ghost use Rattle.centre_blocks.specs.Choice.{SumIs, SumsAre, to_choose};

use crate::lanes::{Sixteen, sums_of};
use distance::Four;
use nearest_centre::{Best, closer};

// The choice after the centre with a number, by its sum of products; there is none at or past k.
fn closer_below(best: Best, number: usize, k: usize, sum: f32) -> Best
    ensures { (v : List Float) (centres : List (List Float)) → length centres ≡ k → SumIs v centres number sum → to_choose v centres number best ≡ to_choose v centres (number + 1) result }
{
    if number < k {
        closer(best, number, 1.0 - sum)
    } else {
        best
    }
}

// The choice after four more centres.
fn closer_four(best: Best, first: usize, k: usize, sums: Four) -> Best
    requires { first + 4 < 2 ^ 64 }
    ensures { (v : List Float) (centres : List (List Float)) → length centres ≡ k → SumsAre v centres first (four_list sums) → to_choose v centres first best ≡ to_choose v centres (first + 4) result }
{
    // By hand: unrolled, and so are the four fours below.
    let one = closer_below(best, first, k, sums.a);
    let two = closer_below(one, first + 1, k, sums.b);
    let three = closer_below(two, first + 2, k, sums.c);
    closer_below(three, first + 3, k, sums.d)
}

// The choice after sixteen more centres.
fn closer_sixteen(best: Best, first: usize, k: usize, sums: Sixteen) -> Best
    requires { first + 16 < 2 ^ 64 }
    ensures { (v : List Float) (centres : List (List Float)) → length centres ≡ k → SumsAre v centres first (lanes sums) → to_choose v centres first best ≡ to_choose v centres (first + 16) result }
{
    let one = closer_four(best, first, k, sums.a);
    let two = closer_four(one, first + 4, k, sums.b);
    let three = closer_four(two, first + 8, k, sums.c);
    closer_four(three, first + 12, k, sums.d)
}

// The number of the nearest of the k centres in blocks.
pub fn nearest_in_blocks(blocks: &[f32], vector: &[f32], k: usize) -> usize
    requires vector_in_bounds { (k + 15) / 16 * (length vector.now * 16) ≤ length blocks.now }
    requires k_bound { k < 2 ^ 32 }
    ensures { result ≡ nearest vector.now (centres_in (length vector.now) k blocks.now) }
{
    let mut best = Best {
        number: 0,
        least: f32::INFINITY,
    };
    for block in 0..(k + 15) / 16 {
        let c = block * 16;
        best = closer_sixteen(best, c, k, sums_of(blocks, vector, c * vector.len()));
    }
    best.number
}
