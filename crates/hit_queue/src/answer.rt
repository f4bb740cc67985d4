// The hits of an answer are taken out of the queue.
ghost use Rattle.std.specs.Prelude.{◌≡◌, ◌+◌, ◌<◌, length};
ghost use Rattle.record_queue.specs.Records.{value, records};
ghost use Rattle.lists.specs.Lists.{keep};
ghost use Rattle.distance.specs.Distance.{distance};
ghost use Rattle.walk.specs.Answer.{is_live, drop_after};
ghost use Rattle.hit_queue.specs.Promises.{TakeHits, Takes, CountRest};
ghost use Rattle.record_queue.specs.Sorted.{sort};

use record_queue::{Record, pop};
use total_order::from_key;

// What was taken of a queue: how many hits, how many records are left, and the last document id, or 2 ^ 32 before the first. A number and no `Option`:
// each hit is compared with it, and an `Option` costs a second test.
#[derive(Clone, Copy)]
pub struct Taken {
    pub hits: usize,
    pub left: usize,
    pub last: u64,
}

// Whether a hit's vector is live: its mark is not 0, among those of the vectors held.
fn live(marks: &[u32], hit: Record) -> bool
    ensures { result ≡ is_live marks.now (value hit) }
{
    let vector = (hit.rest % 0x1_0000_0000) as usize;
    match marks.get(vector) {
        Some(&mark) => mark != 0,
        None => false,
    }
}

// Takes the first k live hits out of the queue, each document's first of a run, and writes their ids and distances.
pub fn take_hits(
    marks: &[u32],
    heap: &mut [u32],
    count: usize,
    k: usize,
    ids: &mut [u32],
    distances: &mut [f32],
) -> Taken
    requires { TakeHits heap.old count k ids.old distances.old }
    ensures { Takes (is_live marks.now) heap.old count k ids.old distances.old result heap.new ids.new distances.new }
{
    let mut hits = 0;
    let mut left = count;
    let mut last: u64 = 0x1_0000_0000;
    // By hand: hits are popped of a queue, which keeps those that are left.
    while hits < k && 0 < left {
        let least = pop(heap, left, 3);
        left -= 1;
        let document = least.rest / 0x1_0000_0000;
        if document != last {
            last = document;
            if live(marks, least) {
                ids[hits] = document as u32;
                distances[hits] = from_key(least.key);
                hits += 1;
            }
        }
    }
    Taken { hits, left, last }
}

// How many live hits are left in the queue behind one with a document id, repeats dropped.
pub fn count_rest(marks: &[u32], heap: &mut [u32], count: usize, after: u64) -> usize
    requires { CountRest heap.old count }
    ensures { result ≡ length (keep (is_live marks.now) (drop_after after (sort (records 3 count heap.old)))) }
{
    let mut total = 0;
    let mut left = count;
    let mut last = after;
    // By hand: as above.
    while 0 < left {
        let least = pop(heap, left, 3);
        left -= 1;
        let id = least.rest / 0x1_0000_0000;
        if id != last {
            last = id;
            if live(marks, least) {
                total += 1;
            }
        }
    }
    total
}
