// The nearest centre of a vector.
#![tactic(auto)]

ghost use Rattle.std.specs.Prelude.{◌+◌, ◌*◌, ◌≤◌, ◌<◌, ◌^◌, ◌≡◌, cond, List, ◌∷◌, length, drop, Float};
ghost use Rattle.std.specs.Float.Ieee.{lt};
ghost use Rattle.lists.specs.Lists.{part};
ghost use Rattle.cluster.specs.Clusters.{nearest, nearest_from};
ghost use Rattle.cluster.specs.Vectors.{vectors_from};

use distance::places::{distance_at, distances_at};

// The centre chosen so far and its distance.
#[derive(Clone, Copy)]
pub struct Best {
    pub number: usize,
    pub least: f32,
}

// The choice after one more centre: a strictly smaller distance is chosen.
pub fn closer(best: Best, number: usize, d: f32) -> Best
    ensures number_value { result.number ≡ cond (lt d best.least) number best.number }
    ensures least_value { result.least ≡ cond (lt d best.least) d best.least }
{
    if d < best.least {
        Best { number, least: d }
    } else {
        best
    }
}

// The choice after the centres from number `first` on.
fn nearest_from(
    floats: &[f32],
    vector: &[f32],
    centres_at: usize,
    k: usize,
    dimension: usize,
    first: usize,
    start: Best,
) -> usize
    requires dimension_in_bounds { centres_at + k * dimension ≤ length floats.now }
    requires first_le_k { first ≤ k }
    ensures { result ≡ nearest_from vector.now first start.number start.least (drop first (vectors_from dimension k centres_at floats.now)) }
{
    let mut best = start;
    for c in first..k {
        let d = distance_at(floats, vector, dimension, centres_at + c * dimension);
        best = closer(best, c, d);
    }
    best.number
}

// The choice after four more centres, the first of which is `number`.
fn closer_of_four(
    floats: &[f32],
    vector: &[f32],
    at: usize,
    dimension: usize,
    number: usize,
    best: Best,
) -> Best
    requires dimension_in_bounds { at + 4 * dimension ≤ length floats.now }
    requires number_bound { number + 4 < 2 ^ 64 }
    ensures { (rest : List (List Float)) → nearest_from vector.now number best.number best.least (part at dimension floats.now ∷ part (at + dimension) dimension floats.now ∷ part (at + dimension + dimension) dimension floats.now ∷ part (at + dimension + dimension + dimension) dimension floats.now ∷ rest) ≡ nearest_from vector.now (number + 4) result.number result.least rest }
{
    let b = at + dimension;
    let c = b + dimension;
    let d = c + dimension;
    let four = distances_at(floats, vector, dimension, at, b, c, d);
    let one = closer(best, number, four.a);
    let two = closer(one, number + 1, four.b);
    let three = closer(two, number + 2, four.c);
    closer(three, number + 3, four.d)
}

// The number of the first centre with a strictly smaller distance than those before it, from
// infinity; 0 where there is none. Four centres are measured at a time.
pub fn nearest_centre(
    floats: &[f32],
    vector: &[f32],
    centres_at: usize,
    k: usize,
    dimension: usize,
) -> usize
    requires { centres_at + k * dimension ≤ length floats.now }
    ensures { result ≡ nearest vector.now (vectors_from dimension k centres_at floats.now) }
{
    let mut best = Best {
        number: 0,
        least: f32::INFINITY,
    };
    let mut c = 0;
    // By hand: a turn takes four centres, and those that are left stand behind c.
    while k - c >= 4 {
        best = closer_of_four(
            floats,
            vector,
            centres_at + c * dimension,
            dimension,
            c,
            best,
        );
        c += 4;
    }
    nearest_from(floats, vector, centres_at, k, dimension, c, best)
}
