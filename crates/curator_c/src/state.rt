// A state as a list of numbers (the layout is `stateList` of specs/State.antt).
ghost use Rattle.std.specs.Prelude.{cond, ◌≡◌, ◌≤◌, length};
ghost use Rattle.std.proofs.lemmas.List.Edits.{sets};
ghost use Rattle.curator_c.specs.State.{places, state_list, state_of, state_in};

use curator::CuratorIndex;
use settings::{Capacities, CuratorParams};
use store::Counts;

// How many places a state takes.
pub const STATE: usize = 14;

// The state whose numbers stand in a list, but for whether it is built.
fn state_of(state: &[usize], built: bool) -> CuratorIndex
    requires { places ≤ length state.now }
    ensures { result ≡ state_of state.now built }
{
    let params = CuratorParams {
        branching_factor: state[1],
        max_leaf_size: state[2],
        ef_search: state[3],
        beam_width: state[4],
    };
    let capacities = Capacities {
        vectors: state[5],
        entries: state[6],
        nodes: state[7],
        text: state[12],
    };
    let counts = Counts {
        vectors: state[8],
        entries: state[9],
        nodes: state[10],
        bytes: state[13],
    };
    CuratorIndex {
        dimension: state[0],
        params,
        capacities,
        counts,
        built,
    }
}

// The state that a list holds, sound or not, if it holds one.
pub fn state_in(state: &[usize]) -> Option<CuratorIndex>
    ensures { result ≡ state_in state.now }
{
    if state.len() < STATE {
        return None;
    }
    if state[11] == 0 {
        return Some(state_of(state, false));
    }
    if state[11] == 1 {
        return Some(state_of(state, true));
    }
    None
}

// Writes a state into the first places.
pub fn write_state(index: CuratorIndex, state: &mut [usize])
    requires { places ≤ length state.old }
    ensures { state.new ≡ sets state.old 0 (state_list index) }
{
    state[0] = index.dimension;
    state[1] = index.params.branching_factor;
    state[2] = index.params.max_leaf_size;
    state[3] = index.params.ef_search;
    state[4] = index.params.beam_width;
    state[5] = index.capacities.vectors;
    state[6] = index.capacities.entries;
    state[7] = index.capacities.nodes;
    state[8] = index.counts.vectors;
    state[9] = index.counts.entries;
    state[10] = index.counts.nodes;
    state[11] = usize::from(index.built);
    state[12] = index.capacities.text;
    state[13] = index.counts.bytes;
}
