// When a state is sound (document 01, row 4), and what fixes the sizes of its lists.
ghost use Rattle.std.specs.Prelude.{◌≡◌};
ghost use Rattle.curator.specs.Limits.{state_sound, index_shape};

use crate::CuratorIndex;
use settings::limits;
use store::Shape;

// Whether a state that is handed in is one that the calls return.
pub fn state_sound(index: CuratorIndex) -> bool
    ensures { result ≡ state_sound index }
{
    let params = index.params;
    let capacities = index.capacities;
    let counts = index.counts;
    limits::dimension_allowed(index.dimension)
        & (limits::params_allowed(params)
            & (limits::capacities_allowed(capacities)
                & (limits::counts_allowed(capacities, counts)
                    & limits::built_allowed(index.built, counts))))
}

// What fixes the sizes of the lists that an index is lent.
pub fn shape_of(index: CuratorIndex) -> Shape
    ensures { result ≡ index_shape index }
{
    Shape {
        dimension: index.dimension,
        branching: index.params.branching_factor,
        vectors: index.capacities.vectors,
        entries: index.capacities.entries,
        nodes: index.capacities.nodes,
        text: index.capacities.text,
    }
}
