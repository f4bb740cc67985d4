// Distances from a query to vectors that stand in a float list; a vector is the part that starts at its place.
ghost use Rattle.std.specs.Prelude.{◌≡◌, ◌+◌, ◌≤◌, length};
ghost use Rattle.lists.specs.Lists.{part};
ghost use Rattle.distance.specs.Distance.{distance};

use crate::{Eight, Four, cosine_distance_eight, cosine_distance_four, cosine_distance_normalized};

// The vector at a place.
fn vector_at(floats: &[f32], dimension: usize, at: usize) -> &[f32]
    requires { at + dimension ≤ length floats.now }
    ensures { result.now ≡ part at dimension floats.now }
{
    &floats[at..][..dimension]
}

// The distance from the query to the vector at a place.
pub fn distance_at(floats: &[f32], query: &[f32], dimension: usize, at: usize) -> f32
    requires { at + dimension ≤ length floats.now }
    ensures { result ≡ distance query.now (part at dimension floats.now) }
{
    cosine_distance_normalized(query, vector_at(floats, dimension, at))
}

// The distances from the query to the vectors at four places.
pub fn distances_at(
    floats: &[f32],
    query: &[f32],
    dimension: usize,
    a: usize,
    b: usize,
    c: usize,
    d: usize,
) -> Four
    requires dimension_in_bounds { a + dimension ≤ length floats.now }
    requires dimension_in_bounds_2 { b + dimension ≤ length floats.now }
    requires dimension_in_bounds_3 { c + dimension ≤ length floats.now }
    requires dimension_in_bounds_4 { d + dimension ≤ length floats.now }
    ensures a_value { result.a ≡ distance query.now (part a dimension floats.now) }
    ensures b_value { result.b ≡ distance query.now (part b dimension floats.now) }
    ensures c_value { result.c ≡ distance query.now (part c dimension floats.now) }
    ensures d_value { result.d ≡ distance query.now (part d dimension floats.now) }
{
    cosine_distance_four(
        query,
        vector_at(floats, dimension, a),
        vector_at(floats, dimension, b),
        vector_at(floats, dimension, c),
        vector_at(floats, dimension, d),
    )
}

// The distances from the query to the vectors at eight places.
pub fn eight_distances_at(
    floats: &[f32],
    query: &[f32],
    dimension: usize,
    a: usize,
    b: usize,
    c: usize,
    d: usize,
    e: usize,
    f: usize,
    g: usize,
    h: usize,
) -> Eight
    requires dimension_in_bounds { a + dimension ≤ length floats.now }
    requires dimension_in_bounds_2 { b + dimension ≤ length floats.now }
    requires dimension_in_bounds_3 { c + dimension ≤ length floats.now }
    requires dimension_in_bounds_4 { d + dimension ≤ length floats.now }
    requires dimension_in_bounds_5 { e + dimension ≤ length floats.now }
    requires dimension_in_bounds_6 { f + dimension ≤ length floats.now }
    requires dimension_in_bounds_7 { g + dimension ≤ length floats.now }
    requires dimension_in_bounds_8 { h + dimension ≤ length floats.now }
    ensures a_value { result.front.a ≡ distance query.now (part a dimension floats.now) }
    ensures b_value { result.front.b ≡ distance query.now (part b dimension floats.now) }
    ensures c_value { result.front.c ≡ distance query.now (part c dimension floats.now) }
    ensures d_value { result.front.d ≡ distance query.now (part d dimension floats.now) }
    ensures a_value_2 { result.back.a ≡ distance query.now (part e dimension floats.now) }
    ensures b_value_2 { result.back.b ≡ distance query.now (part f dimension floats.now) }
    ensures c_value_2 { result.back.c ≡ distance query.now (part g dimension floats.now) }
    ensures d_value_2 { result.back.d ≡ distance query.now (part h dimension floats.now) }
{
    cosine_distance_eight(
        query,
        vector_at(floats, dimension, a),
        vector_at(floats, dimension, b),
        vector_at(floats, dimension, c),
        vector_at(floats, dimension, d),
        vector_at(floats, dimension, e),
        vector_at(floats, dimension, f),
        vector_at(floats, dimension, g),
        vector_at(floats, dimension, h),
    )
}
