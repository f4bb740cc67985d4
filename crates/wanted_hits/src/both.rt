// The owners of a label's entries in a leaf's list that also have an entry of another label there (02, K1).
ghost use Rattle.std.specs.Prelude.{◌+◌, ◌<◌, ◌≤◌, length, drop};
ghost use Rattle.lists.specs.Lists.{part};
ghost use Rattle.walk.specs.Wanted.{with_both, name_of, is_labels, text_held};
ghost use Rattle.walk.specs.StoreView.{entries_in, end_in};
ghost use Rattle.leaf_hits.specs.Promises.{AddedHits};
ghost use Rattle.wanted_hits.specs.Promises.{HitsLent, CompareLent, ClearLent, MarkLent, Compares, ClearsOwners, MarksOwners, TakesMarked};

use leaf_hits::{block_of, named};
use store::{Counts, Lists, Shape};
use walk::look::Block;
use walk::{Damaged, Label};

// Whether an entry is a label's: it has its hash and its name. One that has its hash and bytes that are not all held is damage.
#[tactic(auto, unfolding(walk::specs::Wanted::text_held, walk::specs::Wanted::is_labels))]
fn compare_label(
    shape: Shape,
    counts: Counts,
    lists: Lists,
    label: Label,
    entry: usize,
) -> Result<bool, Damaged>
    requires { CompareLent shape counts lists.numbers.now lists.hashes.now lists.text.now entry }
    ensures { Compares (text_held counts (entries_in shape lists.entry.numbers.now lists.entry.hashes.now lists.entry.text.now) (end_in shape lists.entry.numbers.now) label.entry.hash entry)
        (is_labels (entries_in shape lists.entry.numbers.now lists.entry.hashes.now lists.entry.text.now) label.entry.hash (name_of label.entry) entry) result }
{
    if lists.hashes[entry] != label.hash {
        return Ok(false);
    }
    let start = lists.numbers[shape.starts_at() + entry] as usize;
    let size = lists.numbers[shape.lengths_at() + entry] as usize;
    if counts.bytes < start + size {
        return Err(Damaged);
    }
    Ok(named(lists.text, start, size, label))
}

// Clears the marks of the owners of a list's entries. Every entry is checked, whatever its hash.
fn clear_owners(
    counts: Counts,
    numbers: &[u32],
    marks: &mut [u32],
    owners_at: usize,
    block: Block,
) -> Result<(), Damaged>
    requires { ClearLent counts numbers.now marks.old owners_at block.start block.count }
    ensures { ClearsOwners counts numbers.now owners_at (part block.start block.count numbers.now) marks.old result marks.new }
{
    for &number in block_of(numbers, block) {
        let entry = number as usize;
        if counts.entries <= entry {
            return Err(Damaged);
        }
        let owner = numbers[owners_at + entry] as usize;
        if counts.vectors <= owner {
            return Err(Damaged);
        }
        marks[owner] = 0;
    }
    Ok(())
}

// Marks the owners of a label's entries in a list. An entry of its hash whose bytes are not all held is damage.
fn mark_owners(
    shape: Shape,
    counts: Counts,
    lists: Lists,
    marks: &mut [u32],
    label: Label,
    block: Block,
) -> Result<(), Damaged>
    requires { MarkLent shape counts lists.numbers.now lists.hashes.now lists.text.now marks.old block.start block.count }
    ensures { MarksOwners shape counts lists.entry.numbers.now lists.entry.hashes.now lists.entry.text.now label.entry.hash (name_of label.entry) (part block.start block.count lists.entry.numbers.now) marks.old result marks.new }
{
    let numbers = lists.numbers;
    let owners_at = shape.owners_at();
    for &number in block_of(numbers, block) {
        let entry = number as usize;
        if compare_label(shape, counts, lists, label, entry)? {
            let owner = numbers[owners_at + entry] as usize;
            marks[owner] = 1;
        }
    }
    Ok(())
}

// Adds the owners of a label's entries in a list that are marked to the vectors found, which stand from a place on behind the marks. An entry of the
// label's hash whose bytes are not all held is damage, and so is one hit too many.
fn take_marked(
    shape: Shape,
    counts: Counts,
    lists: Lists,
    hits: &mut [u32],
    from: usize,
    before: usize,
    label: Label,
    block: Block,
) -> Result<usize, Damaged>
    requires mark_lent { MarkLent shape counts lists.numbers.now lists.hashes.now lists.text.now hits.old block.start block.count }
    requires vectors_le_from { counts.vectors ≤ from }
    requires before_le_entries { before ≤ counts.entries }
    requires entries_in_bounds { from + counts.entries < length hits.old }
    ensures { TakesMarked shape counts lists.entry.numbers.now lists.entry.hashes.now lists.entry.text.now label.entry.hash (name_of label.entry) (part block.start block.count lists.entry.numbers.now) from before hits.old result hits.new }
{
    let numbers = lists.numbers;
    let owners_at = shape.owners_at();
    let mut total = before;
    for &number in block_of(numbers, block) {
        let entry = number as usize;
        if compare_label(shape, counts, lists, label, entry)? {
            let owner = numbers[owners_at + entry];
            if hits[owner as usize] != 0 {
                if total == counts.entries {
                    return Err(Damaged);
                }
                hits[from + total] = owner;
                total += 1;
            }
        }
    }
    Ok(total)
}

// Adds the owners of a label's entries in a list that also have an entry of another label there. Marks of vectors stand in the front of the hits' part:
// those of the list's owners are cleared, the other label's owners are marked, and of the label's owners the marked ones taken.
pub fn add_both(
    shape: Shape,
    counts: Counts,
    lists: Lists,
    hits: &mut [u32],
    from: usize,
    before: usize,
    label: Label,
    other: Label,
    block: Block,
) -> Result<usize, Damaged>
    requires { HitsLent shape counts lists.numbers.now lists.hashes.now lists.text.now hits.old (with_both label.hash (name_of label) other.hash (name_of other)) from before block.start block.count }
    ensures { AddedHits shape counts lists.entry.numbers.now lists.entry.hashes.now lists.entry.text.now (with_both label.entry.hash (name_of label.entry) other.entry.hash (name_of other.entry)) (part block.start block.count lists.entry.numbers.now) before (drop from hits.old) result (drop from hits.new) }
{
    clear_owners(counts, lists.numbers, hits, shape.owners_at(), block)?;
    mark_owners(shape, counts, lists, hits, other, block)?;
    take_marked(shape, counts, lists, hits, from, before, label, block)
}
