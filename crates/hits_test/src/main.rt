// Hit records of a real search: three echoes are added, the index is built and searched, and a list of eight records is filled from the answer. Every place of
// the list is printed, so that those from the hit count on are seen to keep what they held; then the same for a count that the two lists do not have.
#![tactic(auto)]

ghost use Rattle.hit_records.specs.Hits.{Fills};

use curator::CuratorIndex;
use hit_records::Hit;
use settings::refusal::Refusal;
use settings::{Capacities, CuratorParams};
use std::io;
use store::Lists;

// The number that filling a list gave, and the list.
#[derive(Drop)]
struct Filled {
    number: u32,
    hits: [Hit; 8],
}

// Lends a list of records to be filled.
fn fill(hits: [Hit; 8], ids: &[u32], distances: &[f32], count: usize) -> Filled
    ensures { Fills hits ids.now distances.now count result.number result.hits }
{
    let mut hits = hits;
    let number = hit_records::curator_hits(&mut hits, ids, distances, count);
    Filled { number, hits }
}

fn print_record(rt: &impl Print, hit: Hit) -> io::Result<()> {
    println!(rt; "{} {:08x}", hit.id, float_bits::to_bits(hit.distance))
}

// The number, and every place of the list.
fn print_filled(rt: &impl Print, filled: Filled) -> io::Result<()> {
    println!(rt; "{}", filled.number)?;
    for hit in &filled.hits {
        print_record(rt, *hit)?;
    }
    Ok(())
}

// A list of eight places that hold something is filled, and printed.
fn fill_and_print(rt: &impl Print, ids: &[u32], distances: &[f32], count: usize) -> io::Result<()> {
    let held = Hit {
        id: 99,
        distance: 2.0,
    };
    print_filled(rt, fill([held; 8], ids, distances, count))
}

// The index with a vector added under a document id; a refused call leaves it.
fn added(
    index: CuratorIndex,
    floats: &mut [f32; 50],
    numbers: &mut [u32; 63],
    hashes: &mut [u64; 24],
    text: &mut [u8; 4],
    doc_id: u32,
    vector: &[f32],
) -> CuratorIndex {
    let changed = index.add(floats, numbers, hashes, text, doc_id, vector, &[1, 0], b"a");
    changed.unwrap_or(index)
}

// Three echoes are added, of 1 and 0, 0 and 2, and 3 and 4, and the index is built.
fn three_built(
    fresh: CuratorIndex,
    floats: &mut [f32; 50],
    numbers: &mut [u32; 63],
    hashes: &mut [u64; 24],
    text: &mut [u8; 4],
    work: &mut [u32; 27],
) -> Result<CuratorIndex, Refusal> {
    let one = added(fresh, floats, numbers, hashes, text, 7, &[1.0, 0.0]);
    let two = added(one, floats, numbers, hashes, text, 8, &[0.0, 2.0]);
    let three = added(two, floats, numbers, hashes, text, 9, &[3.0, 4.0]);
    build::build(three, floats, numbers, hashes, text, work)
}

// The records of the four nearest to 1 and 0.
fn print_nearest(
    rt: &impl Print,
    built: CuratorIndex,
    floats: &[f32; 50],
    numbers: &[u32; 63],
    hashes: &[u64; 24],
    text: &[u8; 4],
    work: &mut [u32; 27],
) -> io::Result<()> {
    let mut ids = [0u32; 4];
    let mut distances = [0.0f32; 4];
    let lists = Lists {
        floats,
        numbers,
        hashes,
        text,
    };
    if let Ok(searched) = search::search(
        built,
        lists,
        work,
        &[1.0, 0.0],
        4,
        &mut ids,
        &mut distances,
    ) {
        fill_and_print(rt, &ids, &distances, searched.hits)?;
    }
    fill_and_print(rt, &ids, &distances, 5)
}

fn records_of_a_search(rt: &impl Print, fresh: CuratorIndex) -> io::Result<()> {
    let mut floats = [0.0f32; 50];
    let mut numbers = [0u32; 63];
    let mut hashes = [0u64; 24];
    let mut text = [0u8; 4];
    let mut work = [0u32; 27];
    let changed = three_built(
        fresh,
        &mut floats,
        &mut numbers,
        &mut hashes,
        &mut text,
        &mut work,
    );
    let Ok(built) = changed else {
        return Ok(());
    };
    print_nearest(rt, built, &floats, &numbers, &hashes, &text, &mut work)
}

fn main(rt: HostRuntime) -> io::Result<()> {
    let capacities = Capacities {
        vectors: 4,
        entries: 4,
        nodes: 5,
        text: 4,
    };
    let made = CuratorIndex::new(2, CuratorParams::default(), capacities);
    let Ok(fresh) = made else {
        return Ok(());
    };
    records_of_a_search(&rt, fresh)
}
