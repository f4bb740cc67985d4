// What a build asks before it writes: rows 4, 3, 12 and 15 of document 01. Row 13 is answered by the making of the tree.
ghost use Rattle.std.specs.Prelude.{◌+◌, ◌≤◌, ◌≡◌, ltb, length};
ghost use Rattle.lists.specs.Lists.{part};
ghost use Rattle.lists.specs.Tests.{all_pass};
ghost use Rattle.build.specs.Asked.{build_checked};

use curator::{CuratorIndex, limits};
use settings::refusal::{Refusal, StateRefusal, StoreRefusal};
use store::Lengths;

// Whether the owners from a place on are all below n.
fn owners_sound(numbers: &[u32], at: usize, count: usize, n: usize) -> bool
    requires { at + count ≤ length numbers.now }
    ensures { result ≡ all_pass (λ owner. ltb owner n) (part at count numbers.now) }
{
    let end = at + count;
    for &owner in &numbers[at..end] {
        if n <= owner as usize {
            return false;
        }
    }
    true
}

// The first refusal whose case holds, row 13 apart.
pub fn build_check(
    index: CuratorIndex,
    lent: Lengths,
    work: usize,
    numbers: &[u32],
) -> Result<(), Refusal>
    requires { lent.numbers ≡ length numbers.now }
    ensures { result ≡ build_checked index lent work numbers.now }
{
    if !limits::state_sound(index) {
        return Err(Refusal::State(StateRefusal::InvalidState));
    }
    let shape = limits::shape_of(index);
    if shape.lists_short(lent, work) {
        return Err(Refusal::Store(StoreRefusal::ListTooShort));
    }
    if index.built {
        return Ok(());
    }
    if index.counts.vectors == 0 {
        return Err(Refusal::State(StateRefusal::EmptyIndex));
    }
    if !owners_sound(
        numbers,
        shape.owners_at(),
        index.counts.entries,
        index.counts.vectors,
    ) {
        return Err(Refusal::Store(StoreRefusal::Damaged));
    }
    Ok(())
}
