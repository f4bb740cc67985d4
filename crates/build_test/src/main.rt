// The refusals of `build` below, at and above their boundaries, those of label text apart, and what the four lists that it writes hold after each call. The
// lists are lent with places to spare and hold marks (900, as a float 9.0, as a byte a dot) wherever nothing is held.
//
// The store is that of document 01's worked example: D 2, B 2, V 4, E 4, with room for 4 bytes of label text; the vectors (1, 0), (0, 1) and (3, 4)
// normalised, documents 7, 8 and 9, labels `a`, `b`, `a`; 8 is withdrawn. With leaf size 1 its tree has five nodes; with leaf size 2 the root and two
// leaves; with 3 the root alone. One vector and leaf size 0 give 17 nodes. A line has the number that is returned; of an accepted build 0, the counts of
// vectors, entries and nodes, and whether it is built; then `kept` where every place that 01 does not name as free or written is as it was, and otherwise
// `changed`.
//
// The expected lines are reasoned from 01: sizes and limits from 'The store', numbers and their order from 'Refusals and what they leave', what is
// written from 'Clusters', 'Tree', 'Entries' and 'Filter' by hand. The hashes of `a` and `b` are published FNV-1a values.
#![tactic(auto)]

use call::{plain, try_build};
use compare::{same_bits, same_but};
use curator::CuratorIndex;
use fixture::{example, held_floats, held_hashes, held_numbers, held_text, none, sizes};
use lengths::list_lengths;
use owners::owners;
use print::{print_answer, print_kept};
use states::states;
use std::io;

mod call;
mod compare;
mod fixture;
mod lengths;
mod owners;
mod print;
mod states;

// Row 12, also where an owner is not below n.
fn empty(rt: &impl Print) -> io::Result<()> {
    plain(rt, example(1, 5, 0, 0))?;
    plain(rt, example(1, 5, 0, 3))?;
    plain(rt, example(1, 5, 1, 0))?;
    plain(rt, example(1, 5, 1, 1))
}

// Built, and built again over the lists that the first build left.
fn again(rt: &impl Print, index: CuratorIndex) -> io::Result<()> {
    let mut floats = held_floats();
    let mut numbers = held_numbers(index.capacities.nodes);
    let mut hashes = held_hashes();
    let held = held_text();
    let text: &[u8] = &held;
    let mut work = [900u32; 68];
    let made = build::build(
        index,
        &mut floats,
        &mut numbers,
        &mut hashes,
        text,
        &mut work,
    );
    let Ok(built) = made else {
        return Ok(());
    };
    let floats_left = floats;
    let numbers_left = numbers;
    let hashes_left = hashes;
    let work_left = work;
    let answer = build::build(
        built,
        &mut floats,
        &mut numbers,
        &mut hashes,
        text,
        &mut work,
    );
    print_answer(rt, answer)?;
    print_kept(
        rt,
        same_but(&floats, &floats_left, 0, 0, same_bits)
            & same_but(&numbers, &numbers_left, 0, 0, |x, y| x == y)
            & same_but(&hashes, &hashes_left, 0, 0, |x, y| x == y)
            & same_but(&work, &work_left, 0, 0, |x, y| x == y),
    )
}

// Row 13.
fn nodes(rt: &impl Print) -> io::Result<()> {
    plain(rt, example(1, 1, 3, 3))?;
    plain(rt, example(1, 4, 3, 3))?;
    try_build(rt, example(1, 5, 3, 3), sizes(5, 2), none(), true)?;
    try_build(rt, example(1, 6, 3, 3), sizes(6, 2), none(), true)?;
    plain(rt, example(2, 2, 3, 3))?;
    plain(rt, example(2, 3, 3, 3))?;
    plain(rt, example(2, 4, 3, 3))?;
    plain(rt, example(3, 1, 3, 3))?;
    plain(rt, example(0, 16, 1, 1))?;
    plain(rt, example(0, 17, 1, 1))?;
    plain(rt, example(0, 18, 1, 1))
}

fn main(rt: HostRuntime) -> io::Result<()> {
    states(&rt)?;
    list_lengths(&rt)?;
    empty(&rt)?;
    owners(&rt)?;
    nodes(&rt)?;
    again(&rt, example(1, 5, 3, 3))
}
