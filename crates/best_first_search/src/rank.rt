// The first k live hits of the vectors found: sorted, adjacent equal document ids lose the later, withdrawn ones are struck (document 01, 'Search'; 02, K10).
ghost use Rattle.std.specs.Prelude.{◌≡◌, ◌+◌, ◌≤◌, min, length};
ghost use Rattle.lists.specs.Lists.{part, keep};
ghost use Rattle.store.specs.Store.{live_marks};
ghost use Rattle.walk.specs.Answer.{is_live};
ghost use Rattle.hit_queue.specs.Promises.{hits_of, MeasureLent, CountRest};
ghost use Rattle.best_first_search.specs.Ranks.{PopsDocuments, KeepsFirst, Ranked, withdrawn, CountWithdrawn, DocumentsAsked, FirstHits, Firsts};

use hit_queue::answer::take_hits;
use hit_queue::popped::{pop_behind, queue_again};
use hit_queue::queue::measure;
use store::{Counts, Shape};

// What is kept of a queue: how many hits, and a key up to which there are k documents among them; the highest of all keys, if there are not. The bound is
// a number and no `Option`: the key of each vector that is measured is compared with it.
#[derive(Clone, Copy)]
struct Kept {
    count: usize,
    bound: u32,
}

// Pops hits of a queue until they come to k documents, repeats dropped, or none is left; they stay behind the others.
fn pop_documents(heap: &mut [u32], count: usize, k: usize) -> Kept
    requires { CountRest heap.old count }
    ensures { PopsDocuments heap.old count k result heap.new }
{
    let mut hits = 0;
    let mut left = count;
    // 2 ^ 32 before the first; each hit is compared with it, and an `Option` costs a second test.
    let mut last: u64 = 0x1_0000_0000;
    let mut key: u32 = 0;
    // By hand: hits are popped of a queue, which keeps those that are left.
    while hits != k {
        if left == 0 {
            return Kept {
                count,
                bound: 0xFFFF_FFFF,
            };
        }
        let least = pop_behind(heap, left);
        left -= 1;
        key = least.key;
        let document = least.rest / 0x1_0000_0000;
        if document != last {
            hits += 1;
            last = document;
        }
    }
    Kept {
        count: count - left,
        bound: key,
    }
}

// Keeps of a queue its first hits, up to k documents.
fn keep_first(heap: &mut [u32], count: usize, k: usize) -> Kept
    requires { CountRest heap.old count }
    ensures { KeepsFirst heap.old count k result heap.new }
{
    let kept = pop_documents(heap, count, k);
    let left = count - kept.count;
    queue_again(heap, left, kept.count);
    kept
}

// How many vectors are measured before hits are first left out: all, if they are few for k.
fn first_chunk(found: usize, k: usize) -> usize
    ensures { min found 1 ≤ result }
{
    if found / 16 < k {
        return found;
    }
    4 * k + 4
}

// Makes a queue of hits of the vectors found, the first k of which are those of all. Each time twice as many vectors are measured as the time before,
// and then the hits are left out that come after k documents.
fn rank(
    shape: Shape,
    counts: Counts,
    floats: &[f32],
    numbers: &[u32],
    heap: &mut [u32],
    query: &[f32],
    from: usize,
    found: usize,
    k: usize,
) -> usize
    requires { MeasureLent shape counts floats.now numbers.now heap.old 0 from found }
    ensures { Ranked (hits_of shape floats.now numbers.now query.now (part from found heap.old)) k result heap.new }
{
    let mut chunk = first_chunk(found, k);
    let mut queued = 0;
    let mut bound: u32 = 0xFFFF_FFFF;
    let mut at = from;
    let mut left = found;
    // By hand: each turn takes twice as many as the one before.
    while chunk < left {
        queued = measure(
            shape, counts, floats, numbers, heap, queued, query, bound, at, chunk,
        );
        at += chunk;
        left -= chunk;
        let kept = keep_first(heap, queued, k);
        queued = kept.count;
        bound = kept.bound;
        chunk *= 2;
    }
    measure(
        shape, counts, floats, numbers, heap, queued, query, bound, at, left,
    )
}

// How many of the vectors whose numbers stand from a place on are withdrawn.
fn count_withdrawn(marks: &[u32], list: &[u32], from: usize, found: usize) -> usize
    requires { CountWithdrawn marks.now list.now from found }
    ensures { result ≡ length (keep (withdrawn marks.now) (part from found list.now)) }
{
    let end = from + found;
    let mut count = 0;
    for &vector in &list[from..end] {
        count += (marks[vector as usize] == 0) as usize;
    }
    count
}

// How many documents have the first k live ones among them, whatever is measured later: k, and one for each withdrawn vector, since a withdrawn hit takes the
// place of one document at most. Where k alone makes all be measured, at least as many as there are.
fn documents_asked(marks: &[u32], list: &[u32], from: usize, found: usize, k: usize) -> usize
    requires { DocumentsAsked marks.now list.now from found k }
    ensures { k + length (keep (withdrawn marks.now) (part from found list.now)) ≤ result }
{
    if found / 16 < k {
        return k + found;
    }
    k + count_withdrawn(marks, list, from, found)
}

// Writes the ids and the distances of the first k live hits of the vectors whose numbers stand from a place on.
pub fn first_hits(
    shape: Shape,
    counts: Counts,
    floats: &[f32],
    numbers: &[u32],
    heap: &mut [u32],
    query: &[f32],
    from: usize,
    found: usize,
    k: usize,
    ids: &mut [u32],
    distances: &mut [f32],
) -> usize
    requires { FirstHits shape counts floats.now numbers.now heap.old from found k ids.old distances.old }
    ensures { Firsts (is_live (live_marks shape counts.vectors numbers.now)) (hits_of shape floats.now numbers.now query.now (part from found heap.old)) k ids.old distances.old result ids.new distances.new }
{
    let start = shape.live_at();
    let end = start + counts.vectors;
    let marks = &numbers[start..end];
    let documents = documents_asked(marks, heap, from, found, k);
    let total = rank(
        shape, counts, floats, numbers, heap, query, from, found, documents,
    );
    take_hits(marks, heap, total, k, ids, distances).hits
}
