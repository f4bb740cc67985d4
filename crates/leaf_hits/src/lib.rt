// The vectors of a leaf's list, or the owners of a label's entries in it, are added to those found (documents 01, 'Search', and 02, K4).
#![tactic(auto)]

ghost use Rattle.std.specs.Prelude.{◌≡◌, ◌+◌, ◌-◌, ◌^◌, ◌<◌, ◌≤◌, length, get_or, set, drop, eqb, ltb, ◌&&◌, cond};
ghost use Rattle.lists.specs.Lists.{part, same_list};
ghost use Rattle.walk.specs.Wanted.{with_label, name_of};
ghost use Rattle.leaf_hits.specs.Promises.{AddHits, AddLent, GatherLent, KeepLent, ChunkLent, AddedVectors, GathersHash, KeepsNamed, AddedEntries};

use store::{Counts, Lists, Shape};
use walk::look::Block;
use walk::{Damaged, Label};

// The numbers of a block.
#[inline]
pub fn block_of(numbers: &[u32], block: Block) -> &[u32]
    requires { block.start + block.count ≤ length numbers.now }
    ensures { result.now ≡ part block.start block.count numbers.now }
{
    let end = block.start + block.count;
    &numbers[block.start..end]
}

// Adds the vectors of a leaf's list to those found. Every number of the list is checked.
pub fn add_vectors(
    counts: Counts,
    numbers: &[u32],
    found: &mut [u32],
    before: usize,
    block: Block,
) -> Result<usize, Damaged>
    requires { AddHits numbers.now found.old before counts.vectors block.start block.count }
    ensures { AddedVectors counts (part block.start block.count numbers.now) before found.old result found.new }
{
    let mut total = before;
    for &vector in block_of(numbers, block) {
        if counts.vectors <= vector as usize {
            return Err(Damaged);
        }
        if total == counts.vectors {
            return Err(Damaged);
        }
        found[total] = vector;
        total += 1;
    }
    Ok(total)
}

// Whether four numbers are all below a bound.
fn all_below(bound: usize, a: usize, b: usize, c: usize, d: usize) -> bool
    ensures { result ≡ (ltb a bound && (ltb b bound && (ltb c bound && ltb d bound))) }
{
    (a < bound) & ((b < bound) & ((c < bound) & (d < bound)))
}

// Writes an entry's number behind those before, and counts it if the entry has a hash. A number that is not counted is written over by the next.
fn write_entry(hashes: &[u64], found: &mut [u32], total: usize, hash: u64, entry: usize) -> usize
    requires in_bounds { entry < length hashes.now }
    requires bound { entry < 2 ^ 32 }
    requires total_in_bounds { total < length found.old }
    ensures value { result ≡ total + cond (eqb (get_or hashes.now entry 0) hash) 1 0 }
    ensures upper_bound { result ≤ total + 1 }
    ensures found_after { found.new ≡ set found.old total entry }
{
    found[total] = entry as u32;
    total + (hashes[entry] == hash) as usize
}

// Gathers those of four entries, whose numbers stand at a place, that have a hash.
fn gather_four(
    counts: Counts,
    lists: Lists,
    found: &mut [u32],
    before: usize,
    hash: u64,
    owners_at: usize,
    at: usize,
) -> Result<usize, Damaged>
    requires { GatherLent counts lists.numbers.now lists.hashes.now found.old owners_at before at 4 }
    ensures { GathersHash counts lists.entry.numbers.now lists.entry.hashes.now hash owners_at (part at 4 lists.entry.numbers.now) before found.old result found.new }
{
    let numbers = lists.numbers;
    let hashes = lists.hashes;
    let a = numbers[at] as usize;
    let b = numbers[at + 1] as usize;
    let c = numbers[at + 2] as usize;
    let d = numbers[at + 3] as usize;
    if !all_below(counts.entries, a, b, c, d) {
        return Err(Damaged);
    }
    let a_owner = numbers[owners_at + a] as usize;
    let b_owner = numbers[owners_at + b] as usize;
    let c_owner = numbers[owners_at + c] as usize;
    let d_owner = numbers[owners_at + d] as usize;
    if !all_below(counts.vectors, a_owner, b_owner, c_owner, d_owner) {
        return Err(Damaged);
    }
    let one = write_entry(hashes, found, before, hash, a);
    let two = write_entry(hashes, found, one, hash, b);
    let three = write_entry(hashes, found, two, hash, c);
    Ok(write_entry(hashes, found, three, hash, d))
}

// The same for the entries of a block, one at a time.
fn gather_rest(
    counts: Counts,
    lists: Lists,
    found: &mut [u32],
    before: usize,
    hash: u64,
    owners_at: usize,
    block: Block,
) -> Result<usize, Damaged>
    requires { GatherLent counts lists.numbers.now lists.hashes.now found.old owners_at before block.start block.count }
    ensures { GathersHash counts lists.entry.numbers.now lists.entry.hashes.now hash owners_at (part block.start block.count lists.entry.numbers.now) before found.old result found.new }
{
    let numbers = lists.numbers;
    let hashes = lists.hashes;
    let mut total = before;
    for &number in block_of(numbers, block) {
        let entry = number as usize;
        if counts.entries <= entry {
            return Err(Damaged);
        }
        if counts.vectors <= numbers[owners_at + entry] as usize {
            return Err(Damaged);
        }
        found[total] = number;
        total += (hashes[entry] == hash) as usize;
    }
    Ok(total)
}

// Gathers the entries of a list that have a hash behind the numbers before, four at a time. Every entry is checked, whatever its hash.
fn gather_entries(
    counts: Counts,
    lists: Lists,
    found: &mut [u32],
    before: usize,
    hash: u64,
    owners_at: usize,
    block: Block,
) -> Result<usize, Damaged>
    requires { GatherLent counts lists.numbers.now lists.hashes.now found.old owners_at before block.start block.count }
    ensures { GathersHash counts lists.entry.numbers.now lists.entry.hashes.now hash owners_at (part block.start block.count lists.entry.numbers.now) before found.old result found.new }
{
    let mut total = before;
    let mut read = 0;
    // By hand: a turn takes four entries.
    while 4 <= block.count - read {
        total = gather_four(
            counts,
            lists,
            found,
            total,
            hash,
            owners_at,
            block.start + read,
        )?;
        read += 4;
    }
    let rest = Block {
        start: block.start + read,
        count: block.count - read,
    };
    gather_rest(counts, lists, found, total, hash, owners_at, rest)
}

// Whether N bytes of a name are those that stand at the same places of another list. N is a constant, so that this is one comparison in place; `==` of two
// parts would call a function from four bytes on.
#[inline(always)]
fn same_at<const N: usize>(bytes: &[u8], name: &[u8], at: usize) -> bool
    requires positive { 0 < N }
    requires bytes_in_bounds { at + N ≤ length bytes.now }
    requires name_in_bounds { at + N ≤ length name.now }
    ensures { result ≡ same_list (part at N bytes.now) (part at N name.now) }
{
    name[at..].starts_with(&bytes[at..at + N])
}

// Whether two lists of bytes of one length, of N or more, are equal: N bytes a turn, and then their last N, some of them perhaps again.
#[inline(always)]
fn same_by<const N: usize>(bytes: &[u8], name: &[u8]) -> bool
    requires positive { 0 < N }
    requires same_length { length bytes.now ≡ length name.now }
    requires length_bound { N ≤ length name.now }
    ensures { result ≡ same_list bytes.now name.now }
{
    let mut at = 0;
    // By hand: a turn takes N bytes, and the last N are compared whatever is left.
    while N < name.len() - at {
        if !same_at::<N>(bytes, name, at) {
            return false;
        }
        at += N;
    }
    same_at::<N>(bytes, name, name.len() - N)
}

// Whether the bytes from a place on are those of a name. `==` is taken where it compares in place, which is below four bytes.
#[inline(always)]
#[tactic(auto, using(crate::proofs::Names::equal_bytes))]
fn same_bytes(text: &[u8], start: usize, name: &[u8]) -> bool
    requires { start + length name.now ≤ length text.now }
    ensures { result ≡ same_list (part start (length name.now) text.now) name.now }
{
    let end = start + name.len();
    let bytes = &text[start..end];
    match name.len() {
        0..=3 => bytes == name,
        4..=7 => same_by::<4>(bytes, name),
        _ => same_by::<8>(bytes, name),
    }
}

// Whether the bytes of a part of the text are a label's name. All that it calls is inlined, and it is not, so that an entry takes one call.
#[inline(never)]
#[tactic(auto, using(crate::proofs::Names::name_longer, crate::proofs::Names::halves))]
pub fn named(text: &[u8], start: usize, size: usize, label: Label) -> bool
    requires { start + size ≤ length text.now }
    ensures { result ≡ same_list (part start size text.now) (name_of label.entry) }
{
    let first = label.first;
    let second = label.second;
    if size < first.len() {
        return false;
    }
    if size - first.len() != second.len() {
        return false;
    }
    same_bytes(text, start, first) && same_bytes(text, start + first.len(), second)
}

// Of the entries gathered behind the numbers before, keeps the owners of those that have a label's name. An entry whose bytes are not all held is damage,
// and so is one hit too many. An owner is written where an entry stood that was read.
fn keep_named(
    shape: Shape,
    counts: Counts,
    lists: Lists,
    found: &mut [u32],
    before: usize,
    count: usize,
    label: Label,
) -> Result<usize, Damaged>
    requires { KeepLent shape counts lists.numbers.now lists.text.now found.old before count }
    ensures { KeepsNamed shape counts lists.entry.numbers.now lists.entry.text.now (name_of label.entry) (part before count found.old) before found.old result found.new }
{
    let numbers = lists.numbers;
    let owners_at = shape.owners_at();
    let starts_at = shape.starts_at();
    let lengths_at = shape.lengths_at();
    let bytes = counts.bytes;
    let mut kept = before;
    for j in 0..count {
        let entry = found[before + j] as usize;
        let start = numbers[starts_at + entry] as usize;
        let size = numbers[lengths_at + entry] as usize;
        if bytes < start + size {
            return Err(Damaged);
        }
        found[kept] = numbers[owners_at + entry];
        kept += named(lists.text, start, size, label) as usize;
    }
    if counts.entries < kept {
        return Err(Damaged);
    }
    Ok(kept)
}

// Adds the owners of a label's entries in a list to the vectors found, where there is room for every number of the list.
fn add_chunk(
    shape: Shape,
    counts: Counts,
    lists: Lists,
    found: &mut [u32],
    before: usize,
    label: Label,
    block: Block,
) -> Result<usize, Damaged>
    requires { ChunkLent shape counts lists.numbers.now lists.hashes.now lists.text.now found.old before block.start block.count }
    ensures { AddedEntries shape counts lists.entry.numbers.now lists.entry.hashes.now lists.entry.text.now label.entry.hash (name_of label.entry) (part block.start block.count lists.entry.numbers.now) before found.old result found.new }
{
    let owners_at = shape.owners_at();
    let end = gather_entries(counts, lists, found, before, label.hash, owners_at, block)?;
    keep_named(shape, counts, lists, found, before, end - before, label)
}

// The same for any list, in as many chunks as the room asks for: one, unless the list has more entries than there can be hits.
pub fn add_entries(
    shape: Shape,
    counts: Counts,
    lists: Lists,
    found: &mut [u32],
    before: usize,
    label: Label,
    block: Block,
) -> Result<usize, Damaged>
    requires { AddLent shape counts lists.numbers.now lists.hashes.now lists.text.now found.old (with_label label.hash (name_of label)) before block.start block.count }
    ensures { AddedEntries shape counts lists.entry.numbers.now lists.entry.hashes.now lists.entry.text.now label.entry.hash (name_of label.entry) (part block.start block.count lists.entry.numbers.now) before found.old result found.new }
{
    let mut total = before;
    let mut read = 0;
    // By hand: how many entries a turn takes depends on those found before.
    while read < block.count {
        let room = counts.entries + 1 - total;
        let chunk = (block.count - read).min(room);
        let next = Block {
            start: block.start + read,
            count: chunk,
        };
        total = add_chunk(shape, counts, lists, found, total, label, next)?;
        read += chunk;
    }
    Ok(total)
}
