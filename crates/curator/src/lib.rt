// The index: settings, state, refusals and the entry points.
#![tactic(auto)]

ghost use Rattle.curator.specs.Changes.{Creates, Adds, TakesBack, Withdraws};
ghost use Rattle.curator.specs.Lent.{adding};
ghost use Rattle.curator.specs.Calls.{with_counts};
ghost use Rattle.store.specs.Lent.{stored, store_of};
ghost use Rattle.std.specs.Prelude.{◌≡◌};

mod add;
mod check;
pub mod limits;
mod take_back;
mod withdraw;

use settings::refusal::{InputRefusal, Refusal, SettingsRefusal};
use settings::{Capacities, CuratorParams};
use store::{Counts, Lengths, Lists};

// The state of an index. It goes by value; what it holds stands in lists that the caller lends.
#[derive(Clone, Copy)]
pub struct CuratorIndex {
    pub dimension: usize,
    pub params: CuratorParams,
    pub capacities: Capacities,
    pub counts: Counts,
    pub built: bool,
}

impl CuratorIndex {
    // The state with other counts, built or not.
    pub fn with_counts(self, counts: Counts, built: bool) -> CuratorIndex
        ensures { result ≡ with_counts self counts built }
    {
        CuratorIndex {
            counts,
            built,
            ..self
        }
    }

    // An index that holds nothing.
    pub fn new(
        dimension: usize,
        params: CuratorParams,
        capacities: Capacities,
    ) -> Result<CuratorIndex, Refusal>
        ensures { Creates dimension params capacities result }
    {
        if !settings::limits::dimension_allowed(dimension) {
            return Err(Refusal::Settings(SettingsRefusal::InvalidDimension));
        }
        if !(settings::limits::params_allowed(params)
            & settings::limits::capacities_allowed(capacities))
        {
            return Err(Refusal::Settings(SettingsRefusal::InvalidConfig));
        }
        let counts = Counts {
            vectors: 0,
            entries: 0,
            nodes: 0,
            bytes: 0,
        };
        Ok(CuratorIndex {
            dimension,
            params,
            capacities,
            counts,
            built: false,
        })
    }

    // Adds a vector under a document id, with labels, each in two parts: `lengths` has two bytes a label, first part's then second's, and cuts them from `bytes`.
    pub fn add(
        self,
        floats: &mut [f32],
        numbers: &mut [u32],
        hashes: &mut [u64],
        text: &mut [u8],
        doc_id: u32,
        vector: &[f32],
        lengths: &[u8],
        bytes: &[u8],
    ) -> Result<CuratorIndex, Refusal>
        ensures { Adds self (store_of floats.old numbers.old hashes.old text.old)
            (adding doc_id vector.entry lengths.entry bytes.entry)
            result
            (store_of floats.new numbers.new hashes.new text.new) }
    {
        let lent = Lengths {
            floats: floats.len(),
            numbers: numbers.len(),
            hashes: hashes.len(),
            text: text.len(),
        };
        let squares = add::add_check(self, lent, vector, lengths, bytes)?;
        add::write_add(
            self, floats, numbers, hashes, text, doc_id, vector, squares, lengths, bytes,
        );
        Ok(add::grown(self, label::names::label_count(lengths), bytes.len()))
    }

    // Takes back the last vector that is held, with its entries at the end. The lists are read only: the counts go down.
    pub fn take_back(self, lists: Lists) -> Result<CuratorIndex, Refusal>
        ensures { TakesBack self (stored lists.entry) result }
    {
        take_back::take_back_check(self, lists.lengths())?;
        let held = self.counts;
        let shape = limits::shape_of(self);
        let owners = shape.owners_at();
        let entries = take_back::last_entries(lists.numbers, owners, held.entries, held.vectors);
        let bytes = take_back::bytes_left(lists.numbers, shape.starts_at(), held, entries);
        Ok(take_back::shrunk(self, entries, bytes))
    }

    // Withdraws a document id: every vector held that has it is no longer live. The state stays, built or not.
    pub fn withdraw(
        self,
        floats: &[f32],
        numbers: &mut [u32],
        hashes: &[u64],
        text: &[u8],
        doc_id: u32,
    ) -> Result<CuratorIndex, Refusal>
        ensures { Withdraws self (store_of floats.now numbers.old hashes.now text.now) doc_id
            result
            (store_of floats.now numbers.new hashes.now text.now) }
    {
        let lent = Lengths {
            floats: floats.len(),
            numbers: numbers.len(),
            hashes: hashes.len(),
            text: text.len(),
        };
        check::lent_check(self, lent)?;
        let live_at = limits::shape_of(self).live_at();
        if withdraw::withdraw_marks(numbers, live_at, self.counts.vectors, doc_id) {
            return Ok(self);
        }
        Err(Refusal::Input(InputRefusal::UnknownDocument))
    }
}
