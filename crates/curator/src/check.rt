// What add, take back and withdraw ask first: rows 4 and 3 of document 01, the first two also row 5.
ghost use Rattle.std.specs.Prelude.{◌≡◌};
ghost use Rattle.curator.specs.Lent.{lent_rows, early_rows};
ghost use Rattle.curator.specs.Rows.{first_of};

use crate::{CuratorIndex, limits};
use settings::refusal::{Refusal, StateRefusal, StoreRefusal};
use store::Lengths;

// The first refusal of rows 4 and 3 whose case holds.
pub fn lent_check(index: CuratorIndex, lent: Lengths) -> Result<(), Refusal>
    ensures { result ≡ first_of (lent_rows index lent) }
{
    if !limits::state_sound(index) {
        return Err(Refusal::State(StateRefusal::InvalidState));
    }
    if limits::shape_of(index).store_short(lent) {
        return Err(Refusal::Store(StoreRefusal::ListTooShort));
    }
    Ok(())
}

// The first refusal of rows 4, 3 and 5 whose case holds.
pub fn unbuilt_check(index: CuratorIndex, lent: Lengths) -> Result<(), Refusal>
    ensures { result ≡ first_of (early_rows index lent) }
{
    lent_check(index, lent)?;
    if index.built {
        return Err(Refusal::State(StateRefusal::AlreadyBuilt));
    }
    Ok(())
}
