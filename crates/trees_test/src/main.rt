// Builds the indexes that standard input describes and prints the nodes of each: node count, leaf order of vectors, six numbers per node, child links, leaf
// order of entries, filters, of each node that has children the pool of their filters, and centroids; or the refusal. The cases and the lines that they must
// give are made by tools/trees.c.
#![tactic(auto)]

ghost use Rattle.std.specs.Prelude.{◌≤◌, ◌<◌, ◌^◌, min};

use curator::CuratorIndex;
use settings::refusal::Refusal;
use settings::{Capacities, CuratorParams};
use std::io;
use std::io::Read;

// How far the input has been read, and the index so far.
#[derive(Clone, Copy)]
struct Step {
    at: usize,
    index: CuratorIndex,
}

// The number of four bytes at a place, low byte first; 0 where the list ends before.
fn number_at(s: &[u8], at: usize) -> u32 {
    if s.len() < 4 {
        return 0;
    }
    if s.len() - 4 < at {
        return 0;
    }
    u32::from_le_bytes([s[at], s[at + 1], s[at + 2], s[at + 3]])
}

fn size_at(s: &[u8], at: usize) -> usize
    ensures { result < 2 ^ 32 }
{
    number_at(s, at) as usize
}

fn byte_at(s: &[u8], at: usize) -> usize
    ensures { result < 256 }
{
    if at < s.len() {
        return s[at] as usize;
    }
    0
}

// A place n further on, at most the end.
fn forward(end: usize, at: usize, n: usize) -> usize
    ensures within { result ≤ end }
    ensures onward { min at end ≤ result }
{
    if end <= at {
        return end;
    }
    if end - at < n {
        return end;
    }
    at + n
}

fn at_most(n: usize, most: usize) -> usize
    ensures { result ≤ most }
{
    n.min(most)
}

fn print_number(rt: &impl Print, n: u64) -> io::Result<()> {
    print!(rt; " {n:x}")
}

// The rest of a line: so many places of a list from one on, as the numbers that `number` makes of them.
fn print_places<T, F: Fn(&T) -> u64>(
    rt: &impl Print,
    list: &[T],
    from: usize,
    count: usize,
    number: F,
) -> io::Result<()>
    requires { F.IsAlwaysCallable number }
{
    for x in list.iter().skip(from).take(count) {
        print_number(rt, number(x))?;
    }
    println!(rt; "")
}

fn print_refusal(rt: &impl Print, refusal: Refusal) -> io::Result<()> {
    let mut line = [0u8; 19];
    let end = text::write_refused(&mut line, 0, refusal.number());
    rt.write_all(&line[..end])
}

fn float_at(s: &[u8], at: usize, i: usize) -> f32
    requires { i < 8 }
{
    float_bits::from_bits(number_at(s, forward(s.len(), at, 4 * i)))
}

fn vector_at(s: &[u8], at: usize) -> [f32; 8] {
    std::array::from_fn(|i| float_at(s, at, i))
}

// The bytes of a label in two parts, whose lengths stand at a place.
fn label_size(s: &[u8], at: usize) -> usize
    ensures { result < 512 }
{
    byte_at(s, at) + byte_at(s, forward(s.len(), at, 1))
}

// The bytes of up to three labels, whose lengths stand at a place.
fn text_size(s: &[u8], at: usize, labels: usize) -> usize
    ensures { result < 2048 }
{
    if labels == 0 {
        return 0;
    }
    if labels == 1 {
        return label_size(s, at);
    }
    let two = label_size(s, at) + label_size(s, forward(s.len(), at, 2));
    if labels == 2 {
        return two;
    }
    two + label_size(s, forward(s.len(), at, 4))
}

// One add of a case; a refusal is printed and leaves the index.
fn add_one(
    rt: &impl Print,
    s: &[u8],
    at: usize,
    index: CuratorIndex,
    floats: &mut [f32],
    numbers: &mut [u32],
    hashes: &mut [u64],
    text: &mut [u8],
) -> io::Result<Step> {
    let labels = at_most(byte_at(s, forward(s.len(), at, 4)), 3);
    let lengths = forward(s.len(), at, 5);
    let bytes = forward(s.len(), lengths, 2 * labels);
    let place = forward(s.len(), bytes, text_size(s, lengths, labels));
    let dimension = at_most(index.dimension, 8);
    let vector = vector_at(s, place);
    let next = forward(s.len(), place, 4 * dimension);
    let added = index.add(
        floats,
        numbers,
        hashes,
        text,
        number_at(s, at),
        &vector[..dimension],
        &s[lengths..bytes],
        &s[bytes..place],
    );
    match added {
        Ok(grown) => Ok(Step {
            at: next,
            index: grown,
        }),
        Err(refusal) => {
            print_refusal(rt, refusal)?;
            Ok(Step { at: next, index })
        }
    }
}

fn add_all(
    rt: &impl Print,
    s: &[u8],
    from: usize,
    adds: usize,
    fresh: CuratorIndex,
    floats: &mut [f32],
    numbers: &mut [u32],
    hashes: &mut [u64],
    text: &mut [u8],
) -> io::Result<Step> {
    let mut step = Step {
        at: from,
        index: fresh,
    };
    for _ in 0..adds {
        step = add_one(rt, s, step.at, step.index, floats, numbers, hashes, text)?;
    }
    Ok(step)
}

fn product(a: usize, b: usize) -> usize
    requires a_bound { a ≤ 8 }
    requires b_bound { b ≤ 65537 }
{
    a * b
}

// A number of a list; 0 where the list ends before.
fn number_in(list: &[u32], at: usize) -> usize
    ensures { result < 2 ^ 32 }
{
    if at < list.len() {
        return list[at] as usize;
    }
    0
}

// The filter at a place; the empty one where the list ends before.
fn filter_in(list: &[u64], at: usize) -> [u64; 4] {
    if list.len() < 4 {
        return [0, 0, 0, 0];
    }
    if list.len() - 4 < at {
        return [0, 0, 0, 0];
    }
    bloom::words(list, at)
}

// The pool of the filters of the children whose links stand from a place on, where E is 128.
fn pool_of(numbers: &[u32], hashes: &[u64], from: usize, count: usize) -> [u64; 4] {
    let end = forward(numbers.len(), from, count);
    let mut pool = [0u64; 4];
    for i in from..end {
        let other = filter_in(hashes, 128 + 4 * number_in(numbers, i));
        let both = bloom::unite(bloom::words(&pool, 0), other);
        bloom::write_words(&mut pool, 0, both);
    }
    pool
}

// The number of each node that has children, and the pool of their filters, where V is 64 and E 128.
fn print_pools(
    rt: &impl Print,
    numbers: &[u32],
    hashes: &[u64],
    nodes: usize,
    room: usize,
) -> io::Result<()>
    requires nodes_bound { nodes ≤ 65537 }
    requires room_bound { room ≤ 65537 }
{
    for i in 0..nodes {
        let start = number_in(numbers, 256 + 6 * i);
        let count = number_in(numbers, 257 + 6 * i);
        if 0 < count {
            let pool = pool_of(numbers, hashes, 256 + 6 * room + start, count);
            print_number(rt, i as u64)?;
            for word in &pool {
                print_number(rt, *word)?;
            }
        }
    }
    println!(rt; "")
}

// The parts of a built index with V 64 and E 128.
fn print_index(
    rt: &impl Print,
    index: CuratorIndex,
    floats: &[f32],
    numbers: &[u32],
    hashes: &[u64],
) -> io::Result<()> {
    let dimension = at_most(index.dimension, 8);
    let nodes = at_most(index.counts.nodes, 65537);
    let room = at_most(index.capacities.nodes, 65537);
    let centroids = 64 * dimension;
    let components = product(dimension, nodes);
    println!(rt; "nodes {nodes:x}")?;
    print!(rt; "order")?;
    print_places(rt, numbers, 192, index.counts.vectors, |n| u64::from(*n))?;
    print!(rt; "six")?;
    print_places(rt, numbers, 256, 6 * nodes, |n| u64::from(*n))?;
    print!(rt; "links")?;
    if 0 < nodes {
        print_places(rt, numbers, 256 + 6 * room, nodes - 1, |n| u64::from(*n))?;
    }
    print!(rt; "entries")?;
    print_places(
        rt,
        numbers,
        256 + 7 * room,
        index.counts.entries,
        |n| u64::from(*n),
    )?;
    print!(rt; "filters")?;
    print_places(rt, hashes, 128, 4 * nodes, |hash| *hash)?;
    print!(rt; "pools")?;
    print_pools(rt, numbers, hashes, nodes, room)?;
    print!(rt; "centroids")?;
    print_places(
        rt,
        floats,
        centroids,
        components,
        |x| u64::from(float_bits::to_bits(*x)),
    )
}

fn settings_at(s: &[u8], at: usize) -> CuratorParams {
    CuratorParams {
        branching_factor: size_at(s, forward(s.len(), at, 4)),
        max_leaf_size: size_at(s, forward(s.len(), at, 8)),
        ef_search: size_at(s, forward(s.len(), at, 12)),
        beam_width: size_at(s, forward(s.len(), at, 16)),
    }
}

// A case has up to 128 labels of up to three bytes.
fn capacities_at(s: &[u8], at: usize) -> Capacities {
    Capacities {
        vectors: size_at(s, forward(s.len(), at, 20)),
        entries: size_at(s, forward(s.len(), at, 24)),
        nodes: size_at(s, forward(s.len(), at, 28)),
        text: 384,
    }
}

// One case; where the next one starts.
fn run_case(rt: &impl Print, s: &[u8], at: usize) -> io::Result<usize> {
    let made = CuratorIndex::new(size_at(s, at), settings_at(s, at), capacities_at(s, at));
    let Ok(fresh) = made else {
        return Ok(s.len());
    };
    let mut floats = [0.0f32; 9824];
    let mut numbers = [0u32; 8404];
    let mut hashes = [0u64; 4528];
    let mut text = [0u8; 384];
    let mut work = [0u32; 3684];
    let first = forward(s.len(), at, 36);
    let adds = size_at(s, forward(s.len(), at, 32));
    let step = add_all(
        rt,
        s,
        first,
        adds,
        fresh,
        &mut floats,
        &mut numbers,
        &mut hashes,
        &mut text,
    )?;
    let index = step.index;
    let built = build::build(
        index,
        &mut floats,
        &mut numbers,
        &mut hashes,
        &text,
        &mut work,
    );
    match built {
        Err(refusal) => print_refusal(rt, refusal)?,
        Ok(done) => print_index(rt, done, &floats, &numbers, &hashes)?,
    }
    Ok(step.at)
}

fn run_all(rt: &impl Print, s: &[u8]) -> io::Result<()> {
    let mut at = 0;
    for _ in 0..1000 {
        if at < s.len() {
            at = run_case(rt, s, at)?;
        }
    }
    Ok(())
}

fn main(rt: HostRuntime) -> io::Result<()> {
    let mut cases = Vec::new(rt.alloc());
    rt.reader().take(65536).read_to_end(&mut cases)?;
    run_all(&rt, &cases)
}
