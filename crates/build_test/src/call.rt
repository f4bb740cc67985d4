// One call of `build` on the held store, its answer and what it leaves.
use crate::compare::{same_bits, same_but};
use crate::fixture::{
    Garbage, Lent, at_most, held_floats, held_hashes, held_numbers, held_text, lists, none,
    overwrite, sizes, starts_at,
};
use crate::print::{number_of, print_answer, print_kept, print_places};
use curator::CuratorIndex;
use settings::refusal::Refusal;
use std::io;

// Where the free or written places of each list end; they start at 8, 8, 4 and 0. Nothing is free after 4, 3, 12 and of a built index; work after 15.
fn free_ends(index: CuratorIndex, number: u32) -> Lent {
    let all = sizes(index.capacities.nodes, 0);
    if number == 15 {
        return lists(0, 0, 0, 0, all.work);
    }
    if (number == 13) | ((number == 0) & !index.built) {
        return lists(
            all.floats,
            starts_at(index.capacities.nodes),
            all.hashes,
            0,
            all.work,
        );
    }
    lists(0, 0, 0, 0, 0)
}

// The node parts: centroids; leaf order of vectors, six per node, child links, leaf order of entries; filters.
fn print_nodes(
    rt: &impl Print,
    index: CuratorIndex,
    floats: &[f32; 50],
    numbers: &[u32; 156],
    hashes: &[u64; 78],
) -> io::Result<()> {
    let m = at_most(index.capacities.nodes, 18);
    print_places(
        rt,
        "floats",
        floats,
        8,
        8 + 2 * m,
        |x| print!(rt; " {:08x}", float_bits::to_bits(*x)),
    )?;
    print_places(
        rt,
        "numbers",
        numbers,
        8,
        starts_at(index.capacities.nodes),
        |n| print!(rt; " {n}"),
    )?;
    print_places(
        rt,
        "hashes",
        hashes,
        4,
        4 + 4 * m,
        |hash| print!(rt; " {hash:x}"),
    )
}

// The answer, and whether the lists are kept.
fn print_end(
    rt: &impl Print,
    index: CuratorIndex,
    answer: Result<CuratorIndex, Refusal>,
    garbage: Garbage,
    floats: &[f32; 50],
    numbers: &[u32; 156],
    hashes: &[u64; 78],
    work: &[u32; 68],
) -> io::Result<()> {
    let mut before = held_numbers(index.capacities.nodes);
    overwrite(&mut before, garbage);
    let free = free_ends(index, number_of(answer));
    print_answer(rt, answer)?;
    print_kept(
        rt,
        same_but(floats, &held_floats(), 8, free.floats, same_bits)
            & same_but(numbers, &before, 8, free.numbers, |x, y| x == y)
            & same_but(hashes, &held_hashes(), 4, free.hashes, |x, y| x == y)
            & same_but(work, &[900u32; 68], 0, free.work, |x, y| x == y),
    )
}

// A build of the held store: its answer, what it keeps and, if asked, the node parts.
pub fn try_build(
    rt: &impl Print,
    index: CuratorIndex,
    lent: Lent,
    garbage: Garbage,
    shown: bool,
) -> io::Result<()> {
    let f = at_most(lent.floats, 50);
    let n = at_most(lent.numbers, 156);
    let h = at_most(lent.hashes, 78);
    let t = at_most(lent.text, 6);
    let w = at_most(lent.work, 68);
    let mut floats = held_floats();
    let mut numbers = held_numbers(index.capacities.nodes);
    let mut hashes = held_hashes();
    let text = held_text();
    let mut work = [900u32; 68];
    overwrite(&mut numbers, garbage);
    let answer = build::build(
        index,
        &mut floats[..f],
        &mut numbers[..n],
        &mut hashes[..h],
        &text[..t],
        &mut work[..w],
    );
    print_end(
        rt, index, answer, garbage, &floats, &numbers, &hashes, &work,
    )?;
    if shown {
        print_nodes(rt, index, &floats, &numbers, &hashes)?;
    }
    Ok(())
}

// With two places to spare in each list.
pub fn plain(rt: &impl Print, index: CuratorIndex) -> io::Result<()> {
    try_build(rt, index, sizes(index.capacities.nodes, 2), none(), false)
}
