// The vectors that a leaf's list is about, and that have what is wanted, are added to those found (documents 01, 'Search', and 02, K1).
#![tactic(auto)]

pub mod both;

ghost use Rattle.std.specs.Prelude.{drop};
ghost use Rattle.lists.specs.Lists.{part};
ghost use Rattle.walk.specs.Wanted.{about};
ghost use Rattle.leaf_hits.specs.Promises.{AddedHits};
ghost use Rattle.wanted_hits.specs.Promises.{HitsLent};

use crate::both::add_both;
use leaf_hits::{add_entries, add_vectors};
use store::{Counts, Lists, Shape};
use walk::look::Block;
use walk::{Damaged, Wanted};

// Adds the vectors that a leaf's list is about, and that have what is wanted, to those found, which stand from a place on in the hits' part of the work
// list. A number that does not pass, or one hit too many, is damage.
pub fn add_hits(
    shape: Shape,
    counts: Counts,
    lists: Lists,
    hits: &mut [u32],
    from: usize,
    before: usize,
    wanted: Wanted,
    block: Block,
) -> Result<usize, Damaged>
    requires { HitsLent shape counts lists.numbers.now lists.hashes.now lists.text.now hits.old (about wanted) from before block.start block.count }
    ensures { AddedHits shape counts lists.entry.numbers.now lists.entry.hashes.now lists.entry.text.now (about wanted.entry) (part block.start block.count lists.entry.numbers.now) before (drop from hits.old) result (drop from hits.new) }
{
    let end = hits.len();
    match wanted {
        Wanted::Everything => add_vectors(
            counts,
            lists.numbers,
            &mut hits[from..end],
            before,
            block,
        ),
        Wanted::Label(label) => add_entries(
            shape,
            counts,
            lists,
            &mut hits[from..end],
            before,
            label,
            block,
        ),
        Wanted::Both(label, other) => add_both(
            shape, counts, lists, hits, from, before, label, other, block,
        ),
    }
}
