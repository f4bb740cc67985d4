// Settings and capacities of an index, their limits, and why a call is refused.
#![tactic(auto)]

ghost use Rattle.std.specs.Prelude.{◌≡◌};
ghost use Rattle.settings.specs.Limits.{usual};

pub mod limits;
pub mod refusal;

// The settings of an index beside its dimension. `beam_width` is kept and read by no build or search.
#[derive(Clone, Copy)]
pub struct CuratorParams {
    pub branching_factor: usize,
    pub max_leaf_size: usize,
    pub ef_search: usize,
    pub beam_width: usize,
}

impl CuratorParams {
    pub const BRANCHING_FACTOR: usize = 16;

    pub const MAX_LEAF_SIZE: usize = 128;

    pub const EF_SEARCH: usize = 256;

    pub const BEAM_WIDTH: usize = 4;
}

// The usual settings.
impl Default for CuratorParams {
    ghost is_default = { λ params. params ≡ usual };

    fn default() -> Self {
        Self {
            branching_factor: Self::BRANCHING_FACTOR,
            max_leaf_size: Self::MAX_LEAF_SIZE,
            ef_search: Self::EF_SEARCH,
            beam_width: Self::BEAM_WIDTH,
        }
    }
}

// How many vectors, label entries, nodes and bytes of label text the lent lists have room for.
#[derive(Clone, Copy)]
pub struct Capacities {
    pub vectors: usize,
    pub entries: usize,
    pub nodes: usize,
    pub text: usize,
}
