// The hits of the vectors found are measured and put into a queue.
ghost use Rattle.std.specs.Prelude.{◌≡◌, [], ◌∷◌, ◌+◌, ◌*◌, ◌<◌, length, get_or, take};
ghost use Rattle.record_queue.specs.Records.{value};
ghost use Rattle.distance.specs.Distance.{distance};
ghost use Rattle.walk.specs.Answer.{hit_of};
ghost use Rattle.walk.specs.StoreView.{hit_at};
ghost use Rattle.lists.specs.Lists.{part};
ghost use Rattle.hit_queue.specs.Promises.{hits_of, PushWithin, PushFew, FourHeld, EightHeld, Listed, MeasureFew, MeasureLent, Measured};

use distance::Four;
use distance::places::{distances_at, eight_distances_at};
use record_queue::{Record, push};
use store::{Counts, Shape};
use total_order::key;

// The hits of four vectors: fields and no array, as `Four` has their distances, so that each is told by name and no place is looked up.
#[derive(Clone, Copy)]
struct FourHits {
    a: Record,
    b: Record,
    c: Record,
    d: Record,
}

// The hits of eight vectors.
#[derive(Clone, Copy)]
struct EightHits {
    front: FourHits,
    back: FourHits,
}

// The hit of a vector at a distance: the distance's key, document id and number.
fn hit(numbers: &[u32], vector: usize, distance: f32) -> Record
    requires vector_in_bounds { vector < length numbers.now }
    requires vector_bound { vector < 4096 }
    ensures { value result ≡ hit_of distance (get_or numbers.now vector 0) vector }
{
    let document = numbers[vector] as u64;
    Record {
        key: key(distance),
        rest: document * 0x1_0000_0000 + vector as u64,
    }
}

// The hits of four vectors at their distances.
fn hits_of(
    numbers: &[u32],
    first: usize,
    second: usize,
    third: usize,
    fourth: usize,
    distances: Four,
) -> FourHits
    requires listed { Listed numbers.now first }
    requires listed_2 { Listed numbers.now second }
    requires listed_3 { Listed numbers.now third }
    requires listed_4 { Listed numbers.now fourth }
    ensures a_value { value result.a ≡ hit_of distances.a (get_or numbers.now first 0) first }
    ensures b_value { value result.b ≡ hit_of distances.b (get_or numbers.now second 0) second }
    ensures c_value { value result.c ≡ hit_of distances.c (get_or numbers.now third 0) third }
    ensures d_value { value result.d ≡ hit_of distances.d (get_or numbers.now fourth 0) fourth }
{
    FourHits {
        a: hit(numbers, first, distances.a),
        b: hit(numbers, second, distances.b),
        c: hit(numbers, third, distances.c),
        d: hit(numbers, fourth, distances.d),
    }
}

// Adds a hit to the queue, if its key is at most the bound.
fn push_within(heap: &mut [u32], count: usize, bound: u32, record: Record) -> usize
    requires { PushWithin heap.old count 1 }
    ensures { Measured bound (value «record» ∷ []) count heap.old result heap.new }
{
    let mut total = count;
    if record.key <= bound {
        push(heap, count, 3, record);
        total += 1;
    }
    total
}

// Adds two hits to the queue, one after the other with no loop, each if its key is at most the bound.
fn push_two(heap: &mut [u32], count: usize, bound: u32, a: Record, b: Record) -> usize
    requires { PushWithin heap.old count 2 }
    ensures { Measured bound (value a ∷ value b ∷ []) count heap.old result heap.new }
{
    let one = push_within(heap, count, bound, a);
    push_within(heap, one, bound, b)
}

// Adds four hits to the queue, each if its key is at most the bound; most often none is.
fn push_four(
    heap: &mut [u32],
    count: usize,
    bound: u32,
    a: Record,
    b: Record,
    c: Record,
    d: Record,
) -> usize
    requires { PushWithin heap.old count 4 }
    ensures { Measured bound (value a ∷ value b ∷ value c ∷ value d ∷ []) count heap.old result heap.new }
{
    if (bound < a.key) & (bound < b.key) & (bound < c.key) & (bound < d.key) {
        return count;
    }
    let two = push_two(heap, count, bound, a, b);
    push_two(heap, two, bound, c, d)
}

// Adds the first one to three of three hits to the queue, each if its key is at most the bound.
fn push_few(
    heap: &mut [u32],
    count: usize,
    bound: u32,
    few: usize,
    a: Record,
    b: Record,
    c: Record,
) -> usize
    requires { PushFew heap.old count few }
    ensures { Measured bound (take few (value a ∷ value b ∷ value c ∷ [])) count heap.old result heap.new }
{
    if few == 1 {
        return push_within(heap, count, bound, a);
    }
    let two = push_two(heap, count, bound, a, b);
    if few == 2 {
        return two;
    }
    push_within(heap, two, bound, c)
}

// The hits of the four vectors whose numbers stand at places of a list; they are measured at once.
fn four_hits(
    shape: Shape,
    counts: Counts,
    floats: &[f32],
    numbers: &[u32],
    list: &[u32],
    query: &[f32],
    a: usize,
    b: usize,
    c: usize,
    d: usize,
) -> FourHits
    requires { FourHeld shape counts floats.now numbers.now list.now a b c d }
    ensures a_value { value result.a ≡ hit_at shape floats.now numbers.now query.now (get_or list.now a 0) }
    ensures b_value { value result.b ≡ hit_at shape floats.now numbers.now query.now (get_or list.now b 0) }
    ensures c_value { value result.c ≡ hit_at shape floats.now numbers.now query.now (get_or list.now c 0) }
    ensures d_value { value result.d ≡ hit_at shape floats.now numbers.now query.now (get_or list.now d 0) }
{
    let first = list[a] as usize;
    let second = list[b] as usize;
    let third = list[c] as usize;
    let fourth = list[d] as usize;
    let size = shape.dimension;
    let four = distances_at(
        floats,
        query,
        size,
        first * size,
        second * size,
        third * size,
        fourth * size,
    );
    hits_of(numbers, first, second, third, fourth, four)
}

// The hits of the eight vectors whose numbers stand from a place on of a list; they are measured at once.
fn eight_hits(
    shape: Shape,
    counts: Counts,
    floats: &[f32],
    numbers: &[u32],
    list: &[u32],
    query: &[f32],
    at: usize,
) -> EightHits
    requires { EightHeld shape counts floats.now numbers.now list.now at }
    ensures d_value { value result.front.a ∷ value result.front.b ∷ value result.front.c ∷ value result.front.d ∷ [] ≡ hits_of shape floats.now numbers.now query.now (part at 4 list.now) }
    ensures d_value_2 { value result.back.a ∷ value result.back.b ∷ value result.back.c ∷ value result.back.d ∷ [] ≡ hits_of shape floats.now numbers.now query.now (part (at + 4) 4 list.now) }
{
    let a = list[at] as usize;
    let b = list[at + 1] as usize;
    let c = list[at + 2] as usize;
    let d = list[at + 3] as usize;
    let e = list[at + 4] as usize;
    let f = list[at + 5] as usize;
    let g = list[at + 6] as usize;
    let h = list[at + 7] as usize;
    let size = shape.dimension;
    let eight = eight_distances_at(
        floats,
        query,
        size,
        a * size,
        b * size,
        c * size,
        d * size,
        e * size,
        f * size,
        g * size,
        h * size,
    );
    EightHits {
        front: hits_of(numbers, a, b, c, d, eight.front),
        back: hits_of(numbers, e, f, g, h, eight.back),
    }
}

// Adds the hits of the four vectors whose numbers stand from a place on of the list behind the queue.
fn measure_four(
    shape: Shape,
    counts: Counts,
    floats: &[f32],
    numbers: &[u32],
    heap: &mut [u32],
    count: usize,
    query: &[f32],
    bound: u32,
    at: usize,
) -> usize
    requires { MeasureLent shape counts floats.now numbers.now heap.old count at 4 }
    ensures { Measured bound (hits_of shape floats.now numbers.now query.now (part at 4 heap.old)) count heap.old result heap.new }
{
    let four = four_hits(
        shape,
        counts,
        floats,
        numbers,
        heap,
        query,
        at,
        at + 1,
        at + 2,
        at + 3,
    );
    push_four(heap, count, bound, four.a, four.b, four.c, four.d)
}

// The same for eight vectors: all numbers are read before the queue grows.
fn measure_eight(
    shape: Shape,
    counts: Counts,
    floats: &[f32],
    numbers: &[u32],
    heap: &mut [u32],
    count: usize,
    query: &[f32],
    bound: u32,
    at: usize,
) -> usize
    requires { MeasureLent shape counts floats.now numbers.now heap.old count at 8 }
    ensures { Measured bound (hits_of shape floats.now numbers.now query.now (part at 8 heap.old)) count heap.old result heap.new }
{
    let eight = eight_hits(shape, counts, floats, numbers, heap, query, at);
    let front = eight.front;
    let back = eight.back;
    let queued = push_four(heap, count, bound, front.a, front.b, front.c, front.d);
    push_four(heap, queued, bound, back.a, back.b, back.c, back.d)
}

// The same for one to three vectors: four are measured, the last of them repeated, and the repeats are not added.
fn measure_few(
    shape: Shape,
    counts: Counts,
    floats: &[f32],
    numbers: &[u32],
    heap: &mut [u32],
    count: usize,
    query: &[f32],
    bound: u32,
    at: usize,
    few: usize,
) -> usize
    requires { MeasureFew shape counts floats.now numbers.now heap.old count at few }
    ensures { Measured bound (hits_of shape floats.now numbers.now query.now (part at few heap.old)) count heap.old result heap.new }
{
    let second = at + few / 2;
    let last = at + few - 1;
    let four = four_hits(
        shape, counts, floats, numbers, heap, query, at, second, last, last,
    );
    push_few(heap, count, bound, few, four.a, four.b, four.c)
}

// Adds those hits to a queue whose key is at most the bound, of the vectors whose numbers stand from a place on; eight vectors are measured
// at a time, four where fewer are left. By hand: a turn takes eight, four or fewer. The queue grows behind the numbers that are still to be read.
pub fn measure(
    shape: Shape,
    counts: Counts,
    floats: &[f32],
    numbers: &[u32],
    heap: &mut [u32],
    count: usize,
    query: &[f32],
    bound: u32,
    from: usize,
    found: usize,
) -> usize
    requires { MeasureLent shape counts floats.now numbers.now heap.old count from found }
    ensures { Measured bound (hits_of shape floats.now numbers.now query.now (part from found heap.old)) count heap.old result heap.new }
{
    let mut queued = count;
    let mut j = 0;
    while j < found {
        let at = from + j;
        let left = found - j;
        if 8 <= left {
            queued = measure_eight(
                shape, counts, floats, numbers, heap, queued, query, bound, at,
            );
            j += 8;
        } else if 4 <= left {
            queued = measure_four(
                shape, counts, floats, numbers, heap, queued, query, bound, at,
            );
            j += 4;
        } else {
            queued = measure_few(
                shape, counts, floats, numbers, heap, queued, query, bound, at, left,
            );
            j += left;
        }
    }
    queued
}
