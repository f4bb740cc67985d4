// Every refusal of `new`, `add`, `take_back` and `withdraw` at its boundary, and what the lists hold after each add and each withdrawal. The lists are longer
// than their sizes and marked beforehand, so that a surplus place that is written shows. A line has the number that is returned, 0 where the call is accepted,
// and then the counts of vectors, entries and bytes; after an add or a withdrawal follow the four lists.
#![tactic(auto)]

use curator::CuratorIndex;
use settings::refusal::Refusal;
use settings::{Capacities, CuratorParams};
use std::io;
use store::{Counts, Lists};

fn print_floats(rt: &impl Print, list: &[f32]) -> io::Result<()> {
    for x in list {
        print!(rt; "{:08x} ", float_bits::to_bits(*x))?;
    }
    println!(rt; "")
}

fn print_numbers(rt: &impl Print, list: &[u32]) -> io::Result<()> {
    for n in list {
        print!(rt; "{n} ")?;
    }
    println!(rt; "")
}

fn print_hashes(rt: &impl Print, list: &[u64]) -> io::Result<()> {
    for hash in list {
        print!(rt; "{hash:016x} ")?;
    }
    println!(rt; "")
}

fn print_bytes(rt: &impl Print, list: &[u8]) -> io::Result<()> {
    for byte in list {
        print!(rt; "{byte} ")?;
    }
    println!(rt; "")
}

fn print_lists(
    rt: &impl Print,
    floats: &[f32; 10],
    numbers: &[u32; 23],
    hashes: &[u64; 8],
    text: &[u8; 6],
) -> io::Result<()> {
    print_floats(rt, floats)?;
    print_numbers(rt, numbers)?;
    print_hashes(rt, hashes)?;
    print_bytes(rt, text)
}

// The number of an answer, and the counts of vectors, entries and bytes where there are any.
fn print_answer(rt: &impl Print, answer: Result<CuratorIndex, Refusal>) -> io::Result<()> {
    match answer {
        Err(refusal) => println!(rt; "{} ", refusal.number()),
        Ok(index) => {
            let counts = index.counts;
            println!(rt; "0 {} {} {} ", counts.vectors, counts.entries, counts.bytes)
        }
    }
}

fn params(
    branching_factor: usize,
    max_leaf_size: usize,
    ef_search: usize,
    beam_width: usize,
) -> CuratorParams {
    CuratorParams {
        branching_factor,
        max_leaf_size,
        ef_search,
        beam_width,
    }
}

fn capacities(vectors: usize, entries: usize, nodes: usize, text: usize) -> Capacities {
    Capacities {
        vectors,
        entries,
        nodes,
        text,
    }
}

fn new_dimension(rt: &impl Print, dimension: usize) -> io::Result<()> {
    print_answer(
        rt,
        CuratorIndex::new(dimension, CuratorParams::default(), capacities(1, 0, 1, 0)),
    )
}

fn new_params(rt: &impl Print, p: CuratorParams) -> io::Result<()> {
    print_answer(rt, CuratorIndex::new(2, p, capacities(1, 0, 1, 0)))
}

fn new_capacities(rt: &impl Print, c: Capacities) -> io::Result<()> {
    print_answer(rt, CuratorIndex::new(2, CuratorParams::default(), c))
}

fn dimensions(rt: &impl Print) -> io::Result<()> {
    for dimension in [0, 1, 128, 129] {
        new_dimension(rt, dimension)?;
    }
    Ok(())
}

fn settings(rt: &impl Print) -> io::Result<()> {
    for p in [
        params(0, 128, 256, 4),
        params(1, 128, 256, 4),
        params(64, 128, 256, 4),
        params(65, 128, 256, 4),
        params(16, 0, 0, 0),
        params(16, 4096, 256, 4),
        params(16, 4097, 256, 4),
        params(16, 128, 65537, 4),
        params(16, 128, 65538, 4),
        params(16, 128, 256, 65535),
        params(16, 128, 256, 65536),
    ] {
        new_params(rt, p)?;
    }
    Ok(())
}

fn sizes(rt: &impl Print) -> io::Result<()> {
    for c in [
        capacities(0, 0, 1, 0),
        capacities(4096, 0, 1, 0),
        capacities(4097, 0, 1, 0),
        capacities(1, 16384, 1, 0),
        capacities(1, 16385, 1, 0),
        capacities(1, 0, 0, 0),
        capacities(1, 0, 65537, 0),
        capacities(1, 0, 65538, 0),
        capacities(1, 0, 1, 1),
        capacities(1, 0, 1, 4177920),
        capacities(1, 0, 1, 4177921),
    ] {
        new_capacities(rt, c)?;
    }
    print_answer(
        rt,
        CuratorIndex::new(0, params(0, 128, 256, 4), capacities(0, 0, 0, 4177921)),
    )
}

// A state with D 2, B 1, V 2, E 2, M 1 and 4 bytes of label text: 8 floats, 21 numbers, 6 hashes.
fn state(vectors: usize, entries: usize, nodes: usize, bytes: usize, built: bool) -> CuratorIndex {
    CuratorIndex {
        dimension: 2,
        params: params(1, 128, 256, 4),
        capacities: capacities(2, 2, 1, 4),
        counts: Counts {
            vectors,
            entries,
            nodes,
            bytes,
        },
        built,
    }
}

// How many places of each list are lent, at most all.
#[derive(Clone, Copy)]
struct Lent {
    floats: usize,
    numbers: usize,
    hashes: usize,
    text: usize,
}

const ALL: Lent = Lent {
    floats: 10,
    numbers: 23,
    hashes: 8,
    text: 6,
};

const ENOUGH: Lent = Lent {
    floats: 8,
    numbers: 21,
    hashes: 6,
    text: 4,
};

fn places(floats: usize, numbers: usize, hashes: usize, text: usize) -> Lent {
    Lent {
        floats,
        numbers,
        hashes,
        text,
    }
}

// An add to lists of the lengths given, of document 77.
fn try_add(
    rt: &impl Print,
    index: CuratorIndex,
    lent: Lent,
    vector: &[f32],
    lengths: &[u8],
    bytes: &[u8],
) -> io::Result<()> {
    let mut floats = [9.0f32; 10];
    let mut numbers = [9u32; 23];
    let mut hashes = [9u64; 8];
    let mut text = [9u8; 6];
    print_answer(
        rt,
        index.add(
            &mut floats[..lent.floats.min(10)],
            &mut numbers[..lent.numbers.min(23)],
            &mut hashes[..lent.hashes.min(8)],
            &mut text[..lent.text.min(6)],
            77,
            vector,
            lengths,
            bytes,
        ),
    )?;
    print_lists(rt, &floats, &numbers, &hashes, &text)
}

fn states(rt: &impl Print, vector: &[f32]) -> io::Result<()> {
    for index in [
        state(3, 0, 0, 0, false),
        state(0, 3, 0, 0, false),
        state(1, 0, 2, 0, true),
        state(0, 0, 1, 0, true),
        state(1, 0, 0, 0, true),
        state(1, 0, 1, 0, false),
        state(0, 0, 0, 5, false),
    ] {
        try_add(rt, index, ALL, vector, b"", b"")?;
    }
    try_add(
        rt,
        state(3, 0, 0, 0, false),
        places(0, 0, 0, 0),
        vector,
        b"",
        b"",
    )
}

fn lists(rt: &impl Print, vector: &[f32]) -> io::Result<()> {
    for (index, lent) in [
        (state(0, 0, 0, 0, false), places(7, 21, 6, 4)),
        (state(0, 0, 0, 0, false), places(8, 20, 6, 4)),
        (state(0, 0, 0, 0, false), places(8, 21, 5, 4)),
        (state(0, 0, 0, 0, false), places(8, 21, 6, 3)),
        (state(0, 0, 0, 0, false), ENOUGH),
        (state(1, 0, 1, 0, true), places(8, 21, 5, 4)),
        (state(1, 0, 1, 0, true), places(8, 21, 6, 3)),
    ] {
        try_add(rt, index, lent, vector, b"", b"")?;
    }
    try_add(rt, state(1, 0, 1, 0, true), ENOUGH, &[3.0f32], b"", b"")
}

fn vectors(rt: &impl Print) -> io::Result<()> {
    let least = -1.4e-45f32;
    let greatest = 3.4028235e38f32;
    let infinity = greatest * 2.0;
    let nan = infinity - infinity;
    try_add(rt, state(0, 0, 0, 0, false), ALL, &[3.0f32], b"", b"")?;
    try_add(
        rt,
        state(0, 0, 0, 0, false),
        ALL,
        &[nan, nan, nan],
        b"",
        b"",
    )?;
    for vector in [
        [greatest, 0.0],
        [1e30, -1e30],
        [0.0, least],
        [infinity, 0.0],
        [0.0, -infinity],
    ] {
        try_add(rt, state(0, 0, 0, 0, false), ALL, &vector, b"", b"")?;
    }
    try_add(rt, state(0, 0, 0, 0, false), ALL, &[0.0, nan], b"\x01", b"")
}

// One length, an odd list; two lengths that are not the bytes; two and four that are, with empty parts; three that are, an odd list.
fn labels(rt: &impl Print, vector: &[f32]) -> io::Result<()> {
    try_add(rt, state(0, 0, 0, 0, false), ALL, vector, b"\x01", b"a")?;
    try_add(rt, state(0, 0, 0, 0, false), ALL, vector, b"\x00", b"")?;
    try_add(rt, state(0, 0, 0, 0, false), ALL, vector, b"\x01\x00", b"")?;
    try_add(
        rt,
        state(0, 0, 0, 0, false),
        ALL,
        vector,
        b"\x01\x00",
        b"ab",
    )?;
    try_add(rt, state(0, 0, 0, 0, false), ALL, vector, b"\x01\x00", b"a")?;
    try_add(rt, state(0, 0, 0, 0, false), ALL, vector, b"\x00\x01", b"a")?;
    try_add(
        rt,
        state(0, 0, 0, 0, false),
        ALL,
        vector,
        b"\x01\x01",
        b"ab",
    )?;
    try_add(
        rt,
        state(0, 0, 0, 0, false),
        ALL,
        vector,
        b"\x02\x00",
        b"ab",
    )?;
    try_add(
        rt,
        state(0, 0, 0, 0, false),
        ALL,
        vector,
        b"\x01\x00\x00\x00",
        b"a",
    )?;
    try_add(
        rt,
        state(0, 0, 0, 0, false),
        ALL,
        vector,
        b"\x01\x01\x00",
        b"ab",
    )?;
    try_add(rt, state(2, 0, 0, 0, false), ALL, vector, b"", b"a")?;
    try_add(rt, state(2, 0, 0, 0, false), ALL, vector, b"\x01", b"a")
}

fn room(rt: &impl Print, vector: &[f32]) -> io::Result<()> {
    try_add(rt, state(1, 0, 0, 0, false), ALL, vector, b"", b"")?;
    try_add(rt, state(2, 0, 0, 0, false), ALL, vector, b"", b"")?;
    try_add(rt, state(2, 2, 0, 0, false), ALL, vector, b"\x01\x00", b"a")?;
    try_add(rt, state(1, 2, 0, 0, false), ALL, vector, b"", b"")?;
    try_add(
        rt,
        state(1, 1, 0, 0, false),
        ALL,
        vector,
        b"\x01\x01",
        b"ab",
    )?;
    try_add(
        rt,
        state(1, 1, 0, 0, false),
        ALL,
        vector,
        b"\x01\x00\x01\x00",
        b"ab",
    )?;
    let three = b"\x00\x00\x00\x00\x00\x00";
    try_add(rt, state(0, 0, 0, 0, false), ALL, vector, three, b"")
}

// An add with these labels to a state with so many counts, with all of the lists.
fn try_text(
    rt: &impl Print,
    vectors: usize,
    entries: usize,
    held: usize,
    lengths: &[u8],
    bytes: &[u8],
) -> io::Result<()> {
    let vector = [3.0f32, 4.0];
    try_add(
        rt,
        state(vectors, entries, 0, held, false),
        ALL,
        &vector,
        lengths,
        bytes,
    )
}

// Label text: what fits and what does not, with and without bytes held; 9, 10 and 11 before 20.
fn label_text(rt: &impl Print) -> io::Result<()> {
    try_text(rt, 0, 0, 0, b"\x03\x00\x00\x01", b"abcd")?;
    try_text(rt, 0, 0, 0, b"\x03\x00\x00\x02", b"abcde")?;
    try_text(rt, 1, 0, 2, b"\x01\x01", b"ab")?;
    try_text(rt, 1, 0, 3, b"\x01\x01", b"ab")?;
    try_text(rt, 1, 1, 4, b"\x00\x00", b"")?;
    try_text(rt, 1, 1, 4, b"\x01\x00", b"a")?;
    try_text(rt, 1, 1, 1, b"\x00\x03", b"abc")?;
    try_text(rt, 0, 0, 0, b"\x05", b"abcde")?;
    try_text(rt, 2, 0, 4, b"\x01\x00", b"a")?;
    try_text(rt, 1, 2, 4, b"\x01\x00", b"a")
}

// The owners of two entries, and where their labels start.
#[derive(Clone, Copy)]
struct Entries {
    owner: u32,
    next_owner: u32,
    start: u32,
    next_start: u32,
}

fn owned_by(owner: u32, next_owner: u32) -> Entries {
    Entries {
        owner,
        next_owner,
        start: 1,
        next_start: 3,
    }
}

// A taking back from lists of the lengths given, with these two entries.
fn try_take_back(
    rt: &impl Print,
    index: CuratorIndex,
    lent: Lent,
    entries: Entries,
) -> io::Result<()> {
    let floats = [9.0f32; 10];
    let mut numbers = [9u32; 23];
    let hashes = [9u64; 8];
    let text = [9u8; 6];
    numbers[2] = entries.owner;
    numbers[3] = entries.next_owner;
    numbers[15] = entries.start;
    numbers[16] = entries.next_start;
    print_answer(
        rt,
        index.take_back(Lists {
            floats: &floats[..lent.floats.min(10)],
            numbers: &numbers[..lent.numbers.min(23)],
            hashes: &hashes[..lent.hashes.min(8)],
            text: &text[..lent.text.min(6)],
        }),
    )
}

fn back_refused(rt: &impl Print) -> io::Result<()> {
    let entries = owned_by(0, 0);
    for (index, lent) in [
        (state(3, 0, 0, 0, false), places(0, 0, 0, 0)),
        (state(0, 0, 1, 0, false), ALL),
        (state(0, 0, 0, 5, false), ALL),
        (state(1, 0, 1, 0, true), places(7, 21, 6, 4)),
        (state(1, 0, 0, 0, false), places(8, 20, 6, 4)),
        (state(0, 0, 0, 0, false), places(8, 21, 5, 4)),
        (state(0, 0, 0, 0, false), places(8, 21, 6, 3)),
        (state(1, 0, 1, 0, true), ENOUGH),
        (state(0, 0, 0, 0, false), ENOUGH),
        (state(0, 2, 0, 0, false), ENOUGH),
    ] {
        try_take_back(rt, index, lent, entries)?;
    }
    Ok(())
}

// A taking back from a state with so many vectors, entries and bytes.
fn back_from(
    rt: &impl Print,
    vectors: usize,
    entries: usize,
    held: usize,
    stored: Entries,
) -> io::Result<()> {
    try_take_back(rt, state(vectors, entries, 0, held, false), ENOUGH, stored)
}

fn back_accepted(rt: &impl Print) -> io::Result<()> {
    for (vectors, entries, stored) in [
        (1, 0, owned_by(0, 0)),
        (1, 2, owned_by(0, 0)),
        (2, 0, owned_by(1, 1)),
        (2, 1, owned_by(1, 1)),
        (2, 2, owned_by(1, 1)),
        (2, 2, owned_by(0, 1)),
        (2, 2, owned_by(1, 0)),
        (2, 2, owned_by(0, 0)),
        (2, 2, owned_by(1, 2)),
        (2, 2, owned_by(4294967295, 1)),
    ] {
        back_from(rt, vectors, entries, 4, stored)?;
    }
    Ok(())
}

// The start of the first entry that goes, against the bytes held.
fn back_to(
    rt: &impl Print,
    held: usize,
    owner: u32,
    start: u32,
    next_start: u32,
) -> io::Result<()> {
    back_from(
        rt,
        2,
        2,
        held,
        Entries {
            owner,
            next_owner: 1,
            start,
            next_start,
        },
    )
}

fn back_bytes(rt: &impl Print) -> io::Result<()> {
    for (held, owner, start, next_start) in [
        (4, 0, 0, 5),
        (4, 0, 0, 4),
        (4, 0, 9, 0),
        (4, 1, 2, 0),
        (4, 1, 4294967295, 0),
        (0, 0, 0, 3),
    ] {
        back_to(rt, held, owner, start, next_start)?;
    }
    Ok(())
}

// The document ids of two vectors, and their live marks.
#[derive(Clone, Copy)]
struct Documents {
    id: u32,
    next_id: u32,
    mark: u32,
    next_mark: u32,
}

fn of_ids(id: u32, next_id: u32, mark: u32, next_mark: u32) -> Documents {
    Documents {
        id,
        next_id,
        mark,
        next_mark,
    }
}

// A withdrawal of document 77 from lists of the lengths given, with these two vectors.
fn try_withdraw(
    rt: &impl Print,
    index: CuratorIndex,
    lent: Lent,
    stored: Documents,
) -> io::Result<()> {
    let floats = [9.0f32; 10];
    let mut numbers = [9u32; 23];
    let hashes = [9u64; 8];
    let text = [9u8; 6];
    numbers[0] = stored.id;
    numbers[1] = stored.next_id;
    numbers[19] = stored.mark;
    numbers[20] = stored.next_mark;
    print_answer(
        rt,
        index.withdraw(
            &floats[..lent.floats.min(10)],
            &mut numbers[..lent.numbers.min(23)],
            &hashes[..lent.hashes.min(8)],
            &text[..lent.text.min(6)],
            77,
        ),
    )?;
    print_lists(rt, &floats, &numbers, &hashes, &text)
}

// Rows 4 and 3 before 24, whether a vector has the id or not; built or not makes no difference.
fn withdraw_refused(rt: &impl Print) -> io::Result<()> {
    let both = of_ids(77, 77, 1, 1);
    let none = of_ids(76, 78, 1, 1);
    for (index, lent, stored) in [
        (state(3, 0, 0, 0, false), places(0, 0, 0, 0), both),
        (state(3, 0, 0, 0, false), ALL, none),
        (state(0, 0, 1, 0, false), ALL, both),
        (state(2, 0, 0, 0, true), ALL, both),
        (state(2, 0, 0, 5, false), ALL, both),
        (state(2, 0, 0, 0, false), places(7, 21, 6, 4), both),
        (state(2, 0, 1, 0, true), places(8, 20, 6, 4), both),
        (state(2, 0, 0, 0, false), places(8, 21, 5, 4), none),
        (state(0, 0, 0, 0, false), places(8, 21, 6, 3), none),
        (state(0, 0, 0, 0, false), ENOUGH, both),
        (state(2, 0, 0, 0, false), ENOUGH, none),
        (state(2, 0, 1, 0, true), ALL, none),
        (state(1, 0, 0, 0, false), ALL, of_ids(76, 77, 1, 1)),
    ] {
        try_withdraw(rt, index, lent, stored)?;
    }
    Ok(())
}

// One vector or both, held or not, with marks of any number; 0 stays.
fn withdraw_accepted(rt: &impl Print) -> io::Result<()> {
    for (index, lent, stored) in [
        (state(2, 0, 0, 0, false), ENOUGH, of_ids(77, 77, 1, 1)),
        (state(2, 0, 1, 0, true), ENOUGH, of_ids(77, 77, 1, 1)),
        (state(2, 2, 0, 4, false), ALL, of_ids(77, 78, 1, 1)),
        (state(2, 0, 1, 0, true), ALL, of_ids(76, 77, 1, 1)),
        (state(1, 0, 0, 0, false), ALL, of_ids(77, 77, 1, 1)),
        (state(2, 0, 0, 0, false), ALL, of_ids(77, 77, 2, 4294967295)),
        (state(2, 0, 0, 0, false), ALL, of_ids(77, 77, 0, 1)),
        (state(2, 0, 1, 0, true), ALL, of_ids(77, 76, 0, 0)),
        (state(2, 0, 0, 0, false), ALL, of_ids(65613, 77, 3, 3)),
    ] {
        try_withdraw(rt, index, lent, stored)?;
    }
    Ok(())
}

fn main(rt: HostRuntime) -> io::Result<()> {
    dimensions(&rt)?;
    settings(&rt)?;
    sizes(&rt)?;
    let vector = [3.0f32, 4.0];
    states(&rt, &vector)?;
    lists(&rt, &vector)?;
    vectors(&rt)?;
    labels(&rt, &vector)?;
    room(&rt, &vector)?;
    label_text(&rt)?;
    back_refused(&rt)?;
    back_accepted(&rt)?;
    back_bytes(&rt)?;
    withdraw_refused(&rt)?;
    withdraw_accepted(&rt)
}
