// What a taking back asks, and how much it takes back. It writes no list.
ghost use Rattle.std.specs.Prelude.{◌≡◌, ◌+◌, ◌-◌, ◌≤◌, ◌<◌, length, get_or};
ghost use Rattle.lists.specs.Lists.{part};
ghost use Rattle.lists.specs.Suffix.{count_at_end};
ghost use Rattle.curator.specs.Calls.{lowered, with_counts, counts_less};
ghost use Rattle.curator.specs.Lent.{take_back_checked};

use crate::{CuratorIndex, check};
use settings::refusal::{Refusal, StateRefusal};
use store::{Counts, Lengths};

// The first refusal whose case holds.
pub fn take_back_check(index: CuratorIndex, lent: Lengths) -> Result<(), Refusal>
    ensures { result ≡ take_back_checked index lent }
{
    check::unbuilt_check(index, lent)?;
    if index.counts.vectors == 0 {
        return Err(Refusal::State(StateRefusal::NoVectorHeld));
    }
    Ok(())
}

// How many of the owners at the end are `owner`.
fn count_at_end(owners: &[u32], owner: u32) -> usize
    ensures { result ≡ count_at_end owner owners.now }
{
    let count = owners.len();
    for i in (0..count).rev() {
        if owners[i] != owner {
            return count - i - 1;
        }
    }
    count
}

// How many entries the last vector has at the end of those held, which start at `start`.
pub fn last_entries(numbers: &[u32], start: usize, entries: usize, vectors: usize) -> usize
    requires { (0 < vectors) × (vectors ≤ 4096) × (start + entries ≤ length numbers.now) }
    ensures { result ≡ count_at_end (vectors - 1) (part start entries numbers.now) }
{
    let end = start + entries;
    let last = (vectors - 1) as u32;
    count_at_end(&numbers[start..end], last)
}

// How many bytes are left once so many entries are taken back: those before the first of them, whose starts begin at `starts`, if they are fewer.
pub fn bytes_left(numbers: &[u32], starts: usize, held: Counts, entries: usize) -> usize
    requires { (entries ≤ held.entries) × (starts + held.entries ≤ length numbers.now) }
    ensures { result ≡ lowered entries (get_or numbers.now (starts + (held.entries - entries)) 0) held.bytes }
{
    if entries == 0 {
        return held.bytes;
    }
    let start = numbers[starts + (held.entries - entries)] as usize;
    start.min(held.bytes)
}

// The state after an accepted taking back of so many entries, with so many bytes left.
pub fn shrunk(index: CuratorIndex, entries: usize, bytes: usize) -> CuratorIndex
    requires { (0 < index.counts.vectors) × (entries ≤ index.counts.entries) }
    ensures { result ≡ with_counts index (counts_less index.counts entries bytes) index.built }
{
    let held = index.counts;
    index.with_counts(
        Counts {
            vectors: held.vectors - 1,
            entries: held.entries - entries,
            bytes,
            ..held
        },
        index.built,
    )
}
