// What an opened node shows: the part of the numbers in which its list stands.
ghost use Rattle.std.specs.Prelude.{◌≡◌, ◌+◌, ◌*◌, ◌<◌};
ghost use Rattle.lists.specs.Lists.{part};
ghost use Rattle.bloom.specs.Filter.{may_contain};
ghost use Rattle.store.specs.Store.{node_filter};
ghost use Rattle.walk.specs.Promises.{FilterLent, LeafLent, NumbersLent, NodeLent, BlockAsked, Denies, Placing, LeafPlaced, Shows, Looks};

use crate::{Damaged, Wanted};
use bloom::may_contain;
use store::{Counts, Shape};

// A list's places in the numbers.
#[derive(Clone, Copy)]
pub struct Block {
    pub start: usize,
    pub count: usize,
}

// What an opened node shows: a leaf its list, an inner node its children. A denied node shows an empty list.
#[derive(Clone, Copy)]
pub enum Look {
    Leaf(Block),
    Inner(Block),
}

// Whether the filter of node i may contain a hash.
fn admits(shape: Shape, hashes: &[u64], hash: u64, i: usize) -> bool
    requires { FilterLent shape hashes.now i }
    ensures { result ≡ may_contain (node_filter shape hashes.now i) hash }
{
    let start = shape.filters_at() + i * 4;
    let end = start + 4;
    may_contain(&hashes[start..end], hash)
}

// Whether the filter of node i denies what is wanted.
fn denied(shape: Shape, hashes: &[u64], wanted: Wanted, i: usize) -> bool
    requires { FilterLent shape hashes.now i }
    ensures { Denies shape hashes.now wanted.entry i result }
{
    match wanted {
        Wanted::Everything => false,
        Wanted::Label(label) => !admits(shape, hashes, label.hash, i),
        Wanted::Both(label, other) => {
            let one = admits(shape, hashes, label.hash, i);
            let two = admits(shape, hashes, other.hash, i);
            !one | !two
        }
    }
}

// The block whose start and count stand at a place: it counts from `base` on, where `held` numbers are held. One past those is damage.
fn block_at(numbers: &[u32], at: usize, base: usize, held: usize) -> Result<Block, Damaged>
    requires { BlockAsked numbers.now at base held }
    ensures { Placing numbers.now at base held result }
{
    let start = numbers[at] as usize;
    let count = numbers[at + 1] as usize;
    if count == 0 {
        return Ok(Block {
            start: base,
            count: 0,
        });
    }
    if held < start + count {
        return Err(Damaged);
    }
    Ok(Block {
        start: base + start,
        count,
    })
}

// The list that a search reads in the leaf whose six numbers start at a place: its entries, unfiltered its vectors.
fn leaf_list(
    shape: Shape,
    counts: Counts,
    numbers: &[u32],
    wanted: Wanted,
    at: usize,
) -> Result<Block, Damaged>
    requires { LeafLent shape counts numbers.now at }
    ensures { LeafPlaced shape counts numbers.now wanted.entry at result }
{
    match wanted {
        Wanted::Everything => block_at(numbers, at + 2, shape.order_at(), counts.vectors),
        _ => block_at(numbers, at + 4, shape.entry_order_at(), counts.entries),
    }
}

// What node i shows where it is not denied.
fn node_at(
    shape: Shape,
    counts: Counts,
    numbers: &[u32],
    wanted: Wanted,
    i: usize,
) -> Result<Look, Damaged>
    requires { NumbersLent shape counts numbers.now i }
    ensures { Shows shape counts numbers.now wanted.entry i result }
{
    let at = shape.nodes_at() + i * 6;
    if numbers[at + 1] == 0 {
        let list = leaf_list(shape, counts, numbers, wanted, at)?;
        return Ok(Look::Leaf(list));
    }
    let children = block_at(numbers, at, shape.links_at(), counts.nodes)?;
    Ok(Look::Inner(children))
}

// What node i shows. Both walks ask it at each node that they open, so that it becomes a part of them.
#[inline(always)]
pub fn look_at(
    shape: Shape,
    counts: Counts,
    numbers: &[u32],
    hashes: &[u64],
    wanted: Wanted,
    i: usize,
) -> Result<Look, Damaged>
    requires { NodeLent shape counts numbers.now hashes.now i }
    ensures { Looks shape counts numbers.now hashes.now wanted.entry i result }
{
    if denied(shape, hashes, wanted, i) {
        return Ok(Look::Leaf(Block { start: 0, count: 0 }));
    }
    node_at(shape, counts, numbers, wanted, i)
}
