// Document 01's worked example: three echoes are added, the index is built, and the nearest are looked up, at budgets below, at and above the node count,
// with a label that no echo has and with one of 300 bytes. Then the same after numbers of the store were overwritten: each kind of damage at the first and at
// the last place where it can stand, and garbage that no search reads. Those lines are reasoned from 01's list of damage and 02's K4. Last, names in other parts,
// two labels of one hash, and live marks (02's K10).
#![tactic(auto)]

use curator::CuratorIndex;
use settings::refusal::Refusal;
use settings::{Capacities, CuratorParams};
use std::io;
use store::Lists;
use walk::Searched;

fn print_refusal(rt: &impl Print, refusal: Refusal) -> io::Result<()> {
    let mut line = [0u8; 19];
    let end = text::write_refused(&mut line, 0, refusal.number());
    rt.write_all(&line[..end])
}

// The index from now on; a refusal is printed, and the index stays.
fn kept(
    rt: &impl Print,
    index: CuratorIndex,
    changed: Result<CuratorIndex, Refusal>,
) -> io::Result<CuratorIndex> {
    match changed {
        Ok(next) => Ok(next),
        Err(refusal) => {
            print_refusal(rt, refusal)?;
            Ok(index)
        }
    }
}

// The lines of the hits, at most four.
fn print_hits(
    rt: &impl Print,
    count: usize,
    ids: &[u32; 4],
    distances: &[f32; 4],
) -> io::Result<()> {
    if 4 < count {
        return Ok(());
    }
    let mut lines = [0u8; 80];
    let end = text::write_hits(&mut lines, 0, ids, distances, count);
    rt.write_all(&lines[..end])
}

fn print_closing(rt: &impl Print, whole: bool, opened: usize) -> io::Result<()> {
    let mut line = [0u8; 27];
    let end = text::write_closing(&mut line, 0, whole, opened);
    rt.write_all(&line[..end])
}

fn print_found(
    rt: &impl Print,
    found: Result<Searched, Refusal>,
    ids: &[u32; 4],
    distances: &[f32; 4],
) -> io::Result<()> {
    match found {
        Err(refusal) => print_refusal(rt, refusal),
        Ok(searched) => {
            print_hits(rt, searched.hits, ids, distances)?;
            print_closing(rt, searched.whole, searched.opened)
        }
    }
}

// A name in two parts.
#[derive(Clone, Copy)]
struct Name<'a> {
    first: &'a [u8],
    second: &'a [u8],
}

fn in_parts<'a>(first: &'a [u8], second: &'a [u8]) -> Option<Name<'a>> {
    Some(Name { first, second })
}

// Two places of the numbers, and what is written there; a place past the end writes nothing.
#[derive(Clone, Copy)]
struct Damage {
    first: usize,
    first_value: u32,
    second: usize,
    second_value: u32,
}

fn overwrite(numbers: &mut [u32; 63], place: usize, value: u32) {
    if place < 63 {
        numbers[place] = value;
    }
}

fn fresh_index(ef_search: usize) -> Result<CuratorIndex, Refusal> {
    let params = CuratorParams {
        branching_factor: 2,
        max_leaf_size: 1,
        ef_search,
        beam_width: 4,
    };
    let capacities = Capacities {
        vectors: 4,
        entries: 4,
        nodes: 5,
        text: 24,
    };
    CuratorIndex::new(2, params, capacities)
}

// The index with one echo more, which has a label in two parts.
fn added(
    rt: &impl Print,
    index: CuratorIndex,
    floats: &mut [f32; 22],
    numbers: &mut [u32; 63],
    hashes: &mut [u64; 24],
    text: &mut [u8; 24],
    doc_id: u32,
    vector: &[f32],
    lengths: &[u8],
    label: &[u8],
) -> io::Result<CuratorIndex> {
    kept(
        rt,
        index,
        index.add(
            floats, numbers, hashes, text, doc_id, vector, lengths, label,
        ),
    )
}

// What is taught: the three echoes of the example; two with the names `ab` and `ba`, each in two parts; two whose labels have one hash.
#[derive(Clone, Copy)]
enum Echoes {
    Three,
    Parted,
    OneHash,
}

// Two echoes, 7 and 8, with a label each.
fn two_echoes(
    rt: &impl Print,
    fresh: CuratorIndex,
    floats: &mut [f32; 22],
    numbers: &mut [u32; 63],
    hashes: &mut [u64; 24],
    text: &mut [u8; 24],
    lengths: &[u8],
    label: &[u8],
    other_lengths: &[u8],
    other: &[u8],
) -> io::Result<CuratorIndex> {
    let index = added(
        rt,
        fresh,
        floats,
        numbers,
        hashes,
        text,
        7,
        &[1.0, 0.0],
        lengths,
        label,
    )?;
    added(
        rt,
        index,
        floats,
        numbers,
        hashes,
        text,
        8,
        &[0.0, 2.0],
        other_lengths,
        other,
    )
}

// The three echoes of the example.
fn example_echoes(
    rt: &impl Print,
    fresh: CuratorIndex,
    floats: &mut [f32; 22],
    numbers: &mut [u32; 63],
    hashes: &mut [u64; 24],
    text: &mut [u8; 24],
) -> io::Result<CuratorIndex> {
    let index = two_echoes(
        rt,
        fresh,
        floats,
        numbers,
        hashes,
        text,
        &[1, 0],
        b"a",
        &[1, 0],
        b"b",
    )?;
    added(
        rt,
        index,
        floats,
        numbers,
        hashes,
        text,
        9,
        &[3.0, 4.0],
        &[1, 0],
        b"a",
    )
}

// Some of these echoes.
fn taught(
    rt: &impl Print,
    fresh: CuratorIndex,
    floats: &mut [f32; 22],
    numbers: &mut [u32; 63],
    hashes: &mut [u64; 24],
    text: &mut [u8; 24],
    echoes: Echoes,
) -> io::Result<CuratorIndex> {
    match echoes {
        Echoes::Three => example_echoes(rt, fresh, floats, numbers, hashes, text),
        Echoes::Parted => two_echoes(
            rt,
            fresh,
            floats,
            numbers,
            hashes,
            text,
            &[1, 1],
            b"ab",
            &[1, 1],
            b"ba",
        ),
        Echoes::OneHash => two_echoes(
            rt,
            fresh,
            floats,
            numbers,
            hashes,
            text,
            &[8, 0],
            b"\xd5\x6b\xb9\x53\x42\x87\x08\x36",
            &[2, 9],
            b"77kepQFQ8Kl",
        ),
    }
}

// They, built.
fn example_index(
    rt: &impl Print,
    fresh: CuratorIndex,
    floats: &mut [f32; 22],
    numbers: &mut [u32; 63],
    hashes: &mut [u64; 24],
    text: &mut [u8; 24],
    work: &mut [u32; 27],
    echoes: Echoes,
) -> io::Result<CuratorIndex> {
    let index = taught(rt, fresh, floats, numbers, hashes, text, echoes)?;
    kept(
        rt,
        index,
        build::build(index, floats, numbers, hashes, text, work),
    )
}

// The four nearest to (1, 0): those with a label, or all.
fn look_up(
    rt: &impl Print,
    index: CuratorIndex,
    floats: &[f32; 22],
    numbers: &[u32; 63],
    hashes: &[u64; 24],
    text: &[u8; 24],
    work: &mut [u32; 27],
    name: Option<Name>,
) -> io::Result<()> {
    let query = [1.0f32, 0.0];
    let mut ids = [0u32; 4];
    let mut distances = [0.0f32; 4];
    let lists = Lists {
        floats,
        numbers,
        hashes,
        text,
    };
    let found = match name {
        Some(name) => search::search_filtered(
            index,
            lists,
            work,
            &query,
            name.first,
            name.second,
            4,
            &mut ids,
            &mut distances,
        ),
        None => search::search(index, lists, work, &query, 4, &mut ids, &mut distances),
    };
    print_found(rt, found, &ids, &distances)
}

// The worked example with damage: V 4, E 4, M 5, so owners stand at 4, the leaf order of vectors at 8, six numbers per node at 12, child links at 42, the
// leaf order of entries at 47, starts of labels at 51 and lengths at 55. Nodes 0 and 2 are inner, 1, 3 and 4 hold the vectors 0, 1 and 2.
fn example(
    rt: &impl Print,
    ef_search: usize,
    echoes: Echoes,
    name: Option<Name>,
    damage: Damage,
) -> io::Result<()> {
    let made = fresh_index(ef_search);
    let Ok(fresh) = made else {
        return println!(rt; "refused by new");
    };
    let mut floats = [0.0f32; 22];
    let mut numbers = [0u32; 63];
    let mut hashes = [0u64; 24];
    let mut text = [0u8; 24];
    let mut work = [0u32; 27];
    let index = example_index(
        rt,
        fresh,
        &mut floats,
        &mut numbers,
        &mut hashes,
        &mut text,
        &mut work,
        echoes,
    )?;
    overwrite(&mut numbers, damage.first, damage.first_value);
    overwrite(&mut numbers, damage.second, damage.second_value);
    look_up(
        rt, index, &floats, &numbers, &hashes, &text, &mut work, name,
    )
}

// A search of at most `ef_search` nodes where one place is damaged. The example has five nodes.
fn one_place_at(
    rt: &impl Print,
    ef_search: usize,
    name: Option<Name>,
    place: usize,
    value: u32,
) -> io::Result<()> {
    example(
        rt,
        ef_search,
        Echoes::Three,
        name,
        Damage {
            first: place,
            first_value: value,
            second: 63,
            second_value: 0,
        },
    )
}

fn one_place(rt: &impl Print, name: Option<Name>, place: usize, value: u32) -> io::Result<()> {
    one_place_at(rt, 5, name, place, value)
}

// The last four are found at the root, also where the nodes are more than `ef_search`.
fn children(rt: &impl Print) -> io::Result<()> {
    for (place, value) in [
        (42, 0),
        (42, 5),
        (43, 1),
        (45, 2),
        (45, 5),
        (45, 3),
        (13, 6),
        (12, 4),
        (24, 4),
        (12, 4294967295),
    ] {
        one_place(rt, in_parts(b"a", b""), place, value)?;
    }
    one_place_at(rt, 4, in_parts(b"a", b""), 42, 0)?;
    one_place_at(rt, 4, in_parts(b"a", b""), 42, 5)?;
    one_place_at(rt, 4, in_parts(b"a", b""), 43, 1)?;
    one_place_at(rt, 1, None, 13, 6)
}

fn leaves(rt: &impl Print) -> io::Result<()> {
    for (place, value) in [(47, 3), (49, 3), (4, 3), (6, 3), (23, 4), (40, 3)] {
        one_place(rt, in_parts(b"a", b""), place, value)?;
    }
    for (place, value) in [(8, 3), (10, 3), (21, 4)] {
        one_place(rt, None, place, value)?;
    }
    Ok(())
}

// Three entries with the label in node 1 and one in node 4: a fourth hit where three entries are held. Then garbage that is not read: the list of node 3, which
// the filter denies; vectors in a filtered search; entries in an unfiltered one; the start of an empty list; everything where nothing is opened.
fn other(rt: &impl Print) -> io::Result<()> {
    example(
        rt,
        5,
        Echoes::Three,
        in_parts(b"a", b""),
        Damage {
            first: 23,
            first_value: 3,
            second: 48,
            second_value: 0,
        },
    )?;
    one_place(rt, in_parts(b"a", b""), 48, 99)?;
    one_place(rt, in_parts(b"a", b""), 8, 99)?;
    one_place(rt, None, 47, 99)?;
    one_place(rt, in_parts(b"a", b""), 18, 4294967295)?;
    example(
        rt,
        0,
        Echoes::Three,
        in_parts(b"a", b""),
        Damage {
            first: 13,
            first_value: 99,
            second: 42,
            second_value: 99,
        },
    )
}

fn undamaged() -> Damage {
    Damage {
        first: 63,
        first_value: 0,
        second: 63,
        second_value: 0,
    }
}

fn labelled(rt: &impl Print, ef_search: usize, first: &[u8], second: &[u8]) -> io::Result<()> {
    example(
        rt,
        ef_search,
        Echoes::Three,
        in_parts(first, second),
        undamaged(),
    )
}

fn budgets(rt: &impl Print) -> io::Result<()> {
    labelled(rt, 5, b"a", b"")?;
    labelled(rt, 0, b"a", b"")?;
    labelled(rt, 2, b"a", b"")?;
    labelled(rt, 4, b"a", b"")?;
    labelled(rt, 6, b"a", b"")?;
    labelled(rt, 65537, b"a", b"")?;
    labelled(rt, 65538, b"a", b"")?;
    labelled(rt, 5, b"c", b"")?;
    let long = [97u8; 300];
    labelled(rt, 5, &long, b"")
}

fn named(rt: &impl Print, first: &[u8], second: &[u8]) -> io::Result<()> {
    example(rt, 5, Echoes::Parted, in_parts(first, second), undamaged())
}

// Names in other parts: the first empty; each part of 300 bytes; `ab` and `ba`, parted in every way.
fn parts(rt: &impl Print) -> io::Result<()> {
    labelled(rt, 5, b"", b"a")?;
    let long = [97u8; 300];
    labelled(rt, 5, &long, &long)?;
    named(rt, b"a", b"b")?;
    named(rt, b"ab", b"")?;
    named(rt, b"", b"ab")?;
    named(rt, b"b", b"a")?;
    named(rt, b"ba", b"")?;
    named(rt, b"", b"ba")
}

// Start or length of the first `a`, of which three bytes are held: it passes them by one, by far; another length; the bytes of `b`, then those of the other
// `a`. Those of `b` are not read, nor are any without a label.
fn texts(rt: &impl Print) -> io::Result<()> {
    for (place, value) in [
        (51, 3),
        (51, 4294967295),
        (55, 4),
        (55, 4294967295),
        (55, 0),
        (55, 3),
        (51, 1),
        (51, 2),
        (52, 4294967295),
        (56, 4294967295),
    ] {
        one_place(rt, in_parts(b"a", b""), place, value)?;
    }
    one_place(rt, None, 51, 4294967295)
}

fn of_one_hash(rt: &impl Print, first: &[u8], second: &[u8]) -> io::Result<()> {
    example(rt, 5, Echoes::OneHash, in_parts(first, second), undamaged())
}

// Each label finds its own echo, however it is parted.
fn one_hash(rt: &impl Print) -> io::Result<()> {
    of_one_hash(rt, b"\xd5\x6b\xb9\x53\x42\x87\x08\x36", b"")?;
    of_one_hash(rt, b"\xd5\x6b\xb9", b"\x53\x42\x87\x08\x36")?;
    of_one_hash(rt, b"77kepQFQ8Kl", b"")?;
    of_one_hash(rt, b"", b"77kepQFQ8Kl")
}

// A search where two places are other than they were taught.
fn two_places(
    rt: &impl Print,
    name: Option<Name>,
    first: usize,
    first_value: u32,
    second: usize,
    second_value: u32,
) -> io::Result<()> {
    example(
        rt,
        5,
        Echoes::Three,
        name,
        Damage {
            first,
            first_value,
            second,
            second_value,
        },
    )
}

// The marks of 7, 8 and 9 stand from 59 on, and one that is not held: 0 is withdrawn, any other number live. Then 9 is another echo of 7, with 7's mark 0, which
// hides it, and with its own.
fn marks(rt: &impl Print) -> io::Result<()> {
    one_place(rt, in_parts(b"a", b""), 59, 0)?;
    one_place(rt, None, 59, 0)?;
    one_place(rt, in_parts(b"a", b""), 60, 0)?;
    one_place(rt, None, 61, 0)?;
    one_place(rt, in_parts(b"a", b""), 59, 2)?;
    one_place(rt, in_parts(b"a", b""), 59, 4294967295)?;
    one_place(rt, in_parts(b"a", b""), 62, 9)?;
    one_place_at(rt, 2, in_parts(b"a", b""), 59, 0)?;
    one_place_at(rt, 4, in_parts(b"a", b""), 59, 0)?;
    two_places(rt, in_parts(b"a", b""), 59, 0, 61, 0)?;
    two_places(rt, in_parts(b"a", b""), 2, 7, 59, 0)?;
    two_places(rt, None, 2, 7, 59, 0)?;
    two_places(rt, in_parts(b"a", b""), 2, 7, 61, 0)
}

fn main(rt: HostRuntime) -> io::Result<()> {
    budgets(&rt)?;
    children(&rt)?;
    leaves(&rt)?;
    other(&rt)?;
    parts(&rt)?;
    texts(&rt)?;
    one_hash(&rt)?;
    marks(&rt)
}
