// The distance of two vectors, and of one from four or eight, by IEEE 754's binary32: each operation rounded once.
#![tactic(auto)]

ghost use Rattle.std.specs.Prelude.{◌≡◌, ◌&&◌, eqb, ◌<◌, length, drop};
ghost use Rattle.std.specs.Float.{binary32};
ghost use Rattle.std.specs.Float.Ieee.{sub};
ghost use Rattle.vector.specs.Vector.{dot, dot_from, dot_step};
ghost use Rattle.distance.specs.Distance.{one32, distance};

use float_bits::canonical;
use vector::dot;

pub mod places;

// 1.0 minus a sum. A NaN is stored as 7FC00000.
fn from_one(sum: f32) -> f32
    ensures { result ≡ sub binary32 one32 sum }
{
    canonical(1.0 - sum)
}

// 1.0 minus the sum of products; infinity where the lengths differ.
pub fn cosine_distance_normalized(a: &[f32], b: &[f32]) -> f32
    ensures { result ≡ distance a.now b.now }
{
    if a.len() != b.len() {
        return f32::INFINITY;
    }
    from_one(dot(a, b))
}

// One value for each of four vectors. Four and eight are twins by hand: an array of slices whose length is a parameter gets no generated proof.
#[derive(Clone, Copy)]
pub struct Four {
    pub a: f32,
    pub b: f32,
    pub c: f32,
    pub d: f32,
}

// Four sums of nothing.
const NO_SUMS: Four = Four {
    a: 0.0,
    b: 0.0,
    c: 0.0,
    d: 0.0,
};

// One value for each of eight vectors.
#[derive(Clone, Copy)]
pub struct Eight {
    pub front: Four,
    pub back: Four,
}

// Each of four sums with the product of component i added.
fn step_four(sums: Four, q: &[f32], a: &[f32], b: &[f32], c: &[f32], d: &[f32], i: usize) -> Four
    requires i_in_bounds { i < length q.now }
    requires i_in_bounds_2 { i < length a.now }
    requires i_in_bounds_3 { i < length b.now }
    requires i_in_bounds_4 { i < length c.now }
    requires i_in_bounds_5 { i < length d.now }
    ensures a_value { result.a ≡ dot_step sums.a q.now a.now i }
    ensures b_value { result.b ≡ dot_step sums.b q.now b.now i }
    ensures c_value { result.c ≡ dot_step sums.c q.now c.now i }
    ensures d_value { result.d ≡ dot_step sums.d q.now d.now i }
{
    let x = q[i];
    Four {
        a: sums.a + x * a[i],
        b: sums.b + x * b[i],
        c: sums.c + x * c[i],
        d: sums.d + x * d[i],
    }
}

// Four sums with the products of the components from k on added.
fn rest_four(begun: Four, q: &[f32], a: &[f32], b: &[f32], c: &[f32], d: &[f32], k: usize) -> Four
    requires a_len { length a.now ≡ length q.now }
    requires b_len { length b.now ≡ length q.now }
    requires c_len { length c.now ≡ length q.now }
    requires d_len { length d.now ≡ length q.now }
    ensures a_value { result.a ≡ dot_from begun.a (drop k q.now) (drop k a.now) }
    ensures b_value { result.b ≡ dot_from begun.b (drop k q.now) (drop k b.now) }
    ensures c_value { result.c ≡ dot_from begun.c (drop k q.now) (drop k c.now) }
    ensures d_value { result.d ≡ dot_from begun.d (drop k q.now) (drop k d.now) }
{
    let mut sums = begun;
    for i in k..q.len() {
        sums = step_four(sums, q, a, b, c, d, i);
    }
    sums
}

// The sums of products of q with four vectors of its length, side by side. A turn reads four
// components of each; every sum still takes its products one after the other.
fn dot_four(q: &[f32], a: &[f32], b: &[f32], c: &[f32], d: &[f32]) -> Four
    requires a_len { length a.now ≡ length q.now }
    requires b_len { length b.now ≡ length q.now }
    requires c_len { length c.now ≡ length q.now }
    requires d_len { length d.now ≡ length q.now }
    ensures a_value { result.a ≡ dot q.now a.now }
    ensures b_value { result.b ≡ dot q.now b.now }
    ensures c_value { result.c ≡ dot q.now c.now }
    ensures d_value { result.d ≡ dot q.now d.now }
{
    let mut sums = NO_SUMS;
    let mut i = 0;
    // By hand: a turn takes four components.
    while 4 <= q.len() - i {
        sums = step_four(sums, q, a, b, c, d, i);
        sums = step_four(sums, q, a, b, c, d, i + 1);
        sums = step_four(sums, q, a, b, c, d, i + 2);
        sums = step_four(sums, q, a, b, c, d, i + 3);
        i += 4;
    }
    rest_four(sums, q, a, b, c, d, i)
}

// The same for eight vectors: the sums of the front four and of the back four are two chains of additions.
fn dot_eight(
    q: &[f32],
    a: &[f32],
    b: &[f32],
    c: &[f32],
    d: &[f32],
    e: &[f32],
    f: &[f32],
    g: &[f32],
    h: &[f32],
) -> Eight
    requires a_len { length a.now ≡ length q.now }
    requires b_len { length b.now ≡ length q.now }
    requires c_len { length c.now ≡ length q.now }
    requires d_len { length d.now ≡ length q.now }
    requires e_len { length e.now ≡ length q.now }
    requires f_len { length f.now ≡ length q.now }
    requires g_len { length g.now ≡ length q.now }
    requires h_len { length h.now ≡ length q.now }
    ensures a_value { result.front.a ≡ dot q.now a.now }
    ensures b_value { result.front.b ≡ dot q.now b.now }
    ensures c_value { result.front.c ≡ dot q.now c.now }
    ensures d_value { result.front.d ≡ dot q.now d.now }
    ensures a_value_2 { result.back.a ≡ dot q.now e.now }
    ensures b_value_2 { result.back.b ≡ dot q.now f.now }
    ensures c_value_2 { result.back.c ≡ dot q.now g.now }
    ensures d_value_2 { result.back.d ≡ dot q.now h.now }
{
    let mut front = NO_SUMS;
    let mut back = NO_SUMS;
    let mut i = 0;
    // By hand: a turn takes four components.
    while 4 <= q.len() - i {
        front = step_four(front, q, a, b, c, d, i);
        front = step_four(front, q, a, b, c, d, i + 1);
        front = step_four(front, q, a, b, c, d, i + 2);
        front = step_four(front, q, a, b, c, d, i + 3);
        back = step_four(back, q, e, f, g, h, i);
        back = step_four(back, q, e, f, g, h, i + 1);
        back = step_four(back, q, e, f, g, h, i + 2);
        back = step_four(back, q, e, f, g, h, i + 3);
        i += 4;
    }
    Eight {
        front: rest_four(front, q, a, b, c, d, i),
        back: rest_four(back, q, e, f, g, h, i),
    }
}

// 1.0 minus each of four sums.
fn from_ones(sums: Four) -> Four
    ensures a_value { result.a ≡ sub binary32 one32 sums.a }
    ensures b_value { result.b ≡ sub binary32 one32 sums.b }
    ensures c_value { result.c ≡ sub binary32 one32 sums.c }
    ensures d_value { result.d ≡ sub binary32 one32 sums.d }
{
    Four {
        a: from_one(sums.a),
        b: from_one(sums.b),
        c: from_one(sums.c),
        d: from_one(sums.d),
    }
}

// Whether four lengths are n.
fn all_equal(n: usize, a: usize, b: usize, c: usize, d: usize) -> bool
    ensures { result ≡ eqb n a && (eqb n b && (eqb n c && eqb n d)) }
{
    (n == a) & ((n == b) & ((n == c) & (n == d)))
}

// The distances of q from four vectors, each as `cosine_distance_normalized` gives it: where all
// lengths are equal, the four sums are made side by side.
pub fn cosine_distance_four(q: &[f32], a: &[f32], b: &[f32], c: &[f32], d: &[f32]) -> Four
    ensures a_value { result.a ≡ distance q.now a.now }
    ensures b_value { result.b ≡ distance q.now b.now }
    ensures c_value { result.c ≡ distance q.now c.now }
    ensures d_value { result.d ≡ distance q.now d.now }
{
    if all_equal(q.len(), a.len(), b.len(), c.len(), d.len()) {
        return from_ones(dot_four(q, a, b, c, d));
    }
    Four {
        a: cosine_distance_normalized(q, a),
        b: cosine_distance_normalized(q, b),
        c: cosine_distance_normalized(q, c),
        d: cosine_distance_normalized(q, d),
    }
}

// The distances of q from eight vectors, each as `cosine_distance_normalized` gives it.
pub fn cosine_distance_eight(
    q: &[f32],
    a: &[f32],
    b: &[f32],
    c: &[f32],
    d: &[f32],
    e: &[f32],
    f: &[f32],
    g: &[f32],
    h: &[f32],
) -> Eight
    ensures a_value { result.front.a ≡ distance q.now a.now }
    ensures b_value { result.front.b ≡ distance q.now b.now }
    ensures c_value { result.front.c ≡ distance q.now c.now }
    ensures d_value { result.front.d ≡ distance q.now d.now }
    ensures a_value_2 { result.back.a ≡ distance q.now e.now }
    ensures b_value_2 { result.back.b ≡ distance q.now f.now }
    ensures c_value_2 { result.back.c ≡ distance q.now g.now }
    ensures d_value_2 { result.back.d ≡ distance q.now h.now }
{
    let front_equal = all_equal(q.len(), a.len(), b.len(), c.len(), d.len());
    let back_equal = all_equal(q.len(), e.len(), f.len(), g.len(), h.len());
    if front_equal & back_equal {
        let sums = dot_eight(q, a, b, c, d, e, f, g, h);
        return Eight {
            front: from_ones(sums.front),
            back: from_ones(sums.back),
        };
    }
    Eight {
        front: cosine_distance_four(q, a, b, c, d),
        back: cosine_distance_four(q, e, f, g, h),
    }
}
