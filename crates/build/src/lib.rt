// The entry point `build`: what it asks, the tree, and the finishing passes (document 01, 'Calls').
#![tactic(auto)]

ghost use Rattle.curator.specs.Changes.{Builds};
ghost use Rattle.store.specs.Lent.{store_of};

mod check;
mod make;

use curator::CuratorIndex;
use settings::refusal::Refusal;
use store::Lengths;

// Makes the tree of what is held, once: a built index stays as it is. Of the label text only the length is read.
pub fn build(
    index: CuratorIndex,
    floats: &mut [f32],
    numbers: &mut [u32],
    hashes: &mut [u64],
    text: &[u8],
    work: &mut [u32],
) -> Result<CuratorIndex, Refusal>
    ensures { Builds index (store_of floats.old numbers.old hashes.old text.now) work.old
        result
        (store_of floats.new numbers.new hashes.new text.now) work.new }
{
    let lent = Lengths {
        floats: floats.len(),
        numbers: numbers.len(),
        hashes: hashes.len(),
        text: text.len(),
    };
    check::build_check(index, lent, work.len(), numbers)?;
    if index.built {
        return Ok(index);
    }
    make::make_index(index, floats, numbers, hashes, text, work)
}
