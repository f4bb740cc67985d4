// The load of an echo file: one step reads one record, carries it out on the index and writes what is printed of it.
#![tactic(auto)]

ghost use Rattle.std.specs.Prelude.{◌+◌, ◌*◌, ◌≤◌, length, ◌≡◌};
ghost use Rattle.load.specs.Step.{Steps, step_of};
ghost use Rattle.load.specs.Code.{lists, Narrow, NarrowStep};

use carry::Carried;
use curator::CuratorIndex;

mod carry;
mod print;
mod task;

// How many bytes were printed, and where the file goes on: its index, none before the settings. `Next` with no index is not an end, so an Option would hold an
// Option.
#[derive(Clone, Copy)]
pub enum LoadStep {
    Ended {
        printed: usize,
    },
    Next {
        loading: Option<CuratorIndex>,
        at: usize,
        printed: usize,
    },
}

// The step that a record comes to.
fn step_of(carried: Carried, printed: usize) -> LoadStep
    ensures { result ≡ step_of carried printed }
{
    match carried {
        Carried::End | Carried::Refused(_) => LoadStep::Ended { printed },
        Carried::Silent { loading, next } => LoadStep::Next {
            loading,
            at: next,
            printed,
        },
        Carried::Answered { index, next, .. } => LoadStep::Next {
            loading: Some(index),
            at: next,
            printed,
        },
    }
}

// The record at a place of a file; `loading` is the index, none before the settings. `labels` is the store's list of label text; `text`, which is printed, has
// room for a line of each place of an answer.
pub fn load_record(
    loading: Option<CuratorIndex>,
    file: &[u8],
    at: usize,
    floats: &mut [f32],
    numbers: &mut [u32],
    hashes: &mut [u64],
    labels: &mut [u8],
    work: &mut [u32],
    ids: &mut [u32],
    distances: &mut [f32],
    text: &mut [u8],
) -> LoadStep
    requires narrow_2 { Narrow loading }
    requires ids_in_bounds { 20 * length ids.old + 27 ≤ length text.old }
    ensures narrow { NarrowStep result }
    ensures steps { Steps file.now at loading
        (lists floats.old numbers.old hashes.old labels.old work.old ids.old distances.old) text.old result
        (lists floats.new numbers.new hashes.new labels.new work.new ids.new distances.new) text.new }
{
    let carried = carry::carry(
        loading, file, at, floats, numbers, hashes, labels, work, ids, distances,
    );
    let printed = print::write_carried(text, carried, ids, distances);
    step_of(carried, printed)
}
