// The held store and the lists that are lent with it.
ghost use Rattle.std.specs.Prelude.{◌≤◌};

use curator::CuratorIndex;
use settings::{Capacities, CuratorParams};
use store::Counts;

// How many places of each list are lent.
#[derive(Clone, Copy)]
pub struct Lent {
    pub floats: usize,
    pub numbers: usize,
    pub hashes: usize,
    pub text: usize,
    pub work: usize,
}

// A number written into the numbers beforehand; a place past the end writes nothing.
#[derive(Clone, Copy)]
pub struct Garbage {
    pub place: usize,
    pub value: u32,
}

pub fn at_most(n: usize, most: usize) -> usize
    ensures { result ≤ most }
{
    n.min(most)
}

// 01's sizes with D 2, B 2, V 4, E 4, M nodes and 4 bytes of label text, and some places to spare.
pub fn sizes(nodes: usize, spare: usize) -> Lent {
    let m = at_most(nodes, 18);
    let s = at_most(spare, 2);
    Lent {
        floats: 2 * (4 + m + 2) + s,
        numbers: 3 * 4 + 4 * 4 + 7 * m + s,
        hashes: 4 + 4 * m + s,
        text: 4 + s,
        work: 3 * m + 3 * 4 + s,
    }
}

pub fn lists(floats: usize, numbers: usize, hashes: usize, text: usize, work: usize) -> Lent {
    Lent {
        floats,
        numbers,
        hashes,
        text,
        work,
    }
}

pub fn held_floats() -> [f32; 50] {
    let mut list = [9.0f32; 50];
    list[0] = 1.0;
    list[1] = 0.0;
    list[2] = 0.0;
    list[3] = 1.0;
    list[4] = 0.6;
    list[5] = 0.8;
    list
}

// Where the labels' starts begin in the numbers: behind the parts of M nodes.
pub fn starts_at(nodes: usize) -> usize
    ensures { result ≤ 142 }
{
    2 * 4 + 2 * 4 + 7 * at_most(nodes, 18)
}

pub fn held_numbers(nodes: usize) -> [u32; 156] {
    let starts = starts_at(nodes);
    let lengths = starts + 4;
    let marks = lengths + 4;
    let mut list = [900u32; 156];
    list[0] = 7;
    list[1] = 8;
    list[2] = 9;
    list[4] = 0;
    list[5] = 1;
    list[6] = 2;
    list[starts] = 0;
    list[starts + 1] = 1;
    list[starts + 2] = 2;
    list[lengths] = 1;
    list[lengths + 1] = 1;
    list[lengths + 2] = 1;
    list[marks] = 1;
    list[marks + 1] = 0;
    list[marks + 2] = 1;
    list
}

pub fn held_hashes() -> [u64; 78] {
    let mut list = [900u64; 78];
    list[0] = 0xAF63_DC4C_8601_EC8C;
    list[1] = 0xAF63_DF4C_8601_F1A5;
    list[2] = 0xAF63_DC4C_8601_EC8C;
    list
}

pub fn held_text() -> [u8; 6] {
    *b"aba..."
}

pub fn overwrite(numbers: &mut [u32], garbage: Garbage) {
    let place = garbage.place;
    if place < numbers.len() {
        numbers[place] = garbage.value;
    }
}

pub fn none() -> Garbage {
    Garbage {
        place: 156,
        value: 0,
    }
}

pub fn params(
    branching_factor: usize,
    max_leaf_size: usize,
    ef_search: usize,
    beam_width: usize,
) -> CuratorParams {
    CuratorParams {
        branching_factor,
        max_leaf_size,
        ef_search,
        beam_width,
    }
}

// The example, not built, with a leaf size and a capacity of nodes, holding some of its vectors and entries; a label is one byte.
pub fn example(leaf_size: usize, room: usize, vectors: usize, entries: usize) -> CuratorIndex {
    CuratorIndex {
        dimension: 2,
        params: params(2, leaf_size, 5, 4),
        capacities: Capacities {
            vectors: 4,
            entries: 4,
            nodes: room,
            text: 4,
        },
        counts: Counts {
            vectors,
            entries,
            nodes: 0,
            bytes: entries,
        },
        built: false,
    }
}
