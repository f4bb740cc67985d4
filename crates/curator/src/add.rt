// What an add asks and what it writes.
ghost use Rattle.std.specs.Prelude.{◌≡◌, ◌+◌, ◌≤◌, ◌<◌, length, set, replicate};
ghost use Rattle.std.proofs.lemmas.List.Edits.{sets};
ghost use Rattle.vector.specs.Vector.{dot};
ghost use Rattle.curator.specs.Calls.{with_counts, counts_more};
ghost use Rattle.curator.specs.Changes.{with_mark, Wrote};
ghost use Rattle.curator.specs.Lent.{adding, add_checked, AddRoom, LabelsRoom, VectorAt};
ghost use Rattle.label.specs.Names.{summed_pairs, starts_by_lengths};
ghost use Rattle.store.specs.Store.{starts_at, lengths_at};
ghost use Rattle.store.specs.Lent.{store_of};

use crate::{CuratorIndex, check, limits};
use settings::refusal::{InputRefusal, Refusal, StoreRefusal};
use store::{Counts, Lengths, Shape};

// The first refusal whose case holds, or the sum of the vector's squares. One pass looks at the components. No row looks at the document id.
pub fn add_check(
    index: CuratorIndex,
    lent: Lengths,
    vector: &[f32],
    lengths: &[u8],
    bytes: &[u8],
) -> Result<f32, Refusal>
    ensures { result ≡ add_checked index lent (adding 0 vector.entry lengths.entry bytes.entry) }
{
    check::unbuilt_check(index, lent)?;
    if vector.len() != index.dimension {
        return Err(Refusal::Input(InputRefusal::DimensionMismatch));
    }
    let scanned = vector::scan(vector);
    if !scanned.finite {
        return Err(Refusal::Input(InputRefusal::NonFiniteInput));
    }
    if !label::names::lengths_fit(lengths, bytes.len()) {
        return Err(Refusal::Input(InputRefusal::LabelLengths));
    }
    if index.counts.vectors == index.capacities.vectors {
        return Err(Refusal::Store(StoreRefusal::VectorsFull));
    }
    if index.capacities.entries < index.counts.entries + label::names::label_count(lengths) {
        return Err(Refusal::Store(StoreRefusal::EntriesFull));
    }
    if index.capacities.text < index.counts.bytes + bytes.len() {
        return Err(Refusal::Store(StoreRefusal::TextFull));
    }
    Ok(scanned.squares)
}

// Writes what is stored of a vector, the sum of whose squares is `squares`.
fn write_vector(floats: &mut [f32], place: usize, vector: &[f32], squares: f32)
    requires vector_in_bounds { place + length vector.now ≤ length floats.old }
    requires squares_value { squares ≡ dot vector.now vector.now }
    ensures { VectorAt floats.old place vector.now floats.new }
{
    let end = place + vector.len();
    vector::normalize(vector, squares, &mut floats[place..end]);
}

// Writes one number at some places.
fn write_all(numbers: &mut [u32], place: usize, count: usize, number: u32)
    requires { place + count ≤ length numbers.old }
    ensures { numbers.new ≡ sets numbers.old place (replicate count number) }
{
    let end = place + count;
    numbers[place..end].fill(number);
}

// Writes the document id of a vector, and the vector as the owner of its entries.
fn write_numbers(numbers: &mut [u32], vector: usize, doc_id: u32, place: usize, count: usize)
    requires { (vector < 4096) × (vector < length numbers.old) × (place + count ≤ length numbers.old) }
    ensures { numbers.new ≡ sets (set numbers.old vector doc_id) place (replicate count vector) }
{
    let owner = vector as u32;
    numbers[vector] = doc_id;
    write_all(numbers, place, count, owner);
}

// Writes start and length of each label's text, and the vector's live mark, after those held.
fn write_labels(numbers: &mut [u32], shape: Shape, held: Counts, lengths: &[u8])
    requires { LabelsRoom shape held numbers.old lengths.now }
    ensures { numbers.new ≡ with_mark shape held.vectors (sets (sets numbers.old (starts_at shape + held.entries) (starts_by_lengths held.bytes (summed_pairs lengths.now)))
        (lengths_at shape + held.entries) (summed_pairs lengths.now)) }
{
    label::names::write_places(
        numbers,
        shape.starts_at() + held.entries,
        shape.lengths_at() + held.entries,
        held.bytes,
        lengths,
    );
    let mark_at = shape.live_at() + held.vectors;
    numbers[mark_at] = 1;
}

// Writes what an accepted add writes, after what is held; `squares` is the sum of the vector's squares. The vector comes last: nothing else waits for the
// sum, so that hashing goes on while it is made.
pub fn write_add(
    index: CuratorIndex,
    floats: &mut [f32],
    numbers: &mut [u32],
    hashes: &mut [u64],
    text: &mut [u8],
    doc_id: u32,
    vector: &[f32],
    squares: f32,
    lengths: &[u8],
    bytes: &[u8],
)
    requires add_room { AddRoom index (store_of floats.old numbers.old hashes.old text.old) (adding doc_id vector lengths bytes) }
    requires squares_value { squares ≡ dot vector.now vector.now }
    ensures { Wrote index (store_of floats.old numbers.old hashes.old text.old)
        (adding doc_id vector.entry lengths.entry bytes.entry)
        (store_of floats.new numbers.new hashes.new text.new) }
{
    let held = index.counts;
    let shape = limits::shape_of(index);
    write_numbers(
        numbers,
        held.vectors,
        doc_id,
        shape.owners_at() + held.entries,
        label::names::label_count(lengths),
    );
    write_labels(numbers, shape, held, lengths);
    label::names::write_hashes(hashes, held.entries, text, held.bytes, lengths, bytes);
    write_vector(floats, held.vectors * index.dimension, vector, squares);
}

// The state after an accepted add with so many labels of so many bytes.
pub fn grown(index: CuratorIndex, labels: usize, bytes: usize) -> CuratorIndex
    requires { (index.counts.vectors < 4096) × (index.counts.entries + labels ≤ 16384) × (index.counts.bytes + bytes ≤ 4177920) }
    ensures { result ≡ with_counts index (counts_more index.counts labels bytes) index.built }
{
    let held = index.counts;
    index.with_counts(
        Counts {
            vectors: held.vectors + 1,
            entries: held.entries + labels,
            bytes: held.bytes + bytes,
            ..held
        },
        index.built,
    )
}
