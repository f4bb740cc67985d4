// The making of the tree, and of what is laid out with it.
ghost use Rattle.std.specs.Prelude.{◌≡◌};
ghost use Rattle.curator.specs.Calls.{built_with};
ghost use Rattle.curator.specs.Changes.{Builds};
ghost use Rattle.store.specs.Lent.{store_of};
ghost use Rattle.build.specs.Asked.{BuildReady};

use curator::{CuratorIndex, limits};
use settings::refusal::{Refusal, StoreRefusal};
use store::Counts;

// The state after an accepted build.
fn built_with(index: CuratorIndex, nodes: usize) -> CuratorIndex
    ensures { result ≡ built_with index nodes }
{
    let held = index.counts;
    index.with_counts(Counts { nodes, ..held }, true)
}

// Makes the tree and finishes it, or refuses a tree that has more nodes than there is room for.
pub fn make_index(
    index: CuratorIndex,
    floats: &mut [f32],
    numbers: &mut [u32],
    hashes: &mut [u64],
    text: &[u8],
    work: &mut [u32],
) -> Result<CuratorIndex, Refusal>
    requires { BuildReady index (store_of floats.old numbers.old hashes.old text.now) work.old }
    ensures { Builds index (store_of floats.old numbers.old hashes.old text.now) work.old
        result
        (store_of floats.new numbers.new hashes.new text.now) work.new }
{
    let shape = limits::shape_of(index);
    let held = index.counts;
    let made = build_tree::build_tree(
        shape,
        index.params.max_leaf_size,
        held.vectors,
        floats,
        numbers,
        work,
    );
    let nodes = made.ok_or(Refusal::Store(StoreRefusal::NodesFull))?;
    label_entries::insert_label_entries(
        shape,
        held.vectors,
        held.entries,
        nodes,
        numbers,
        hashes,
        work,
    );
    Ok(built_with(index, nodes))
}
