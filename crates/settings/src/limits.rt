// The limits of settings, capacities and counts (document 01, 'The store'), as tests.
ghost use Rattle.std.specs.Prelude.{◌≡◌};
ghost use Rattle.settings.specs.Limits.{dimension_allowed, params_allowed, capacities_allowed, counts_allowed, built_allowed};

use crate::{Capacities, CuratorParams};
use store::Counts;

pub fn dimension_allowed(dimension: usize) -> bool
    ensures { result ≡ dimension_allowed dimension }
{
    (1 <= dimension) & (dimension <= 128)
}

pub fn params_allowed(p: CuratorParams) -> bool
    ensures { result ≡ params_allowed p }
{
    (1 <= p.branching_factor)
        & ((p.branching_factor <= 64)
            & ((p.max_leaf_size <= 4096) & ((p.ef_search <= 65537) & (p.beam_width <= 65535))))
}

pub fn capacities_allowed(c: Capacities) -> bool
    ensures { result ≡ capacities_allowed c }
{
    (1 <= c.vectors)
        & ((c.vectors <= 4096)
            & ((c.entries <= 16384)
                & ((1 <= c.nodes) & ((c.nodes <= 65537) & (c.text <= 4_177_920)))))
}

pub fn counts_allowed(c: Capacities, held: Counts) -> bool
    ensures { result ≡ counts_allowed c held }
{
    (held.vectors <= c.vectors)
        & ((held.entries <= c.entries) & ((held.nodes <= c.nodes) & (held.bytes <= c.text)))
}

pub fn built_allowed(built: bool, held: Counts) -> bool
    ensures { result ≡ built_allowed built held }
{
    if built {
        (0 < held.vectors) & (0 < held.nodes)
    } else {
        held.nodes == 0
    }
}
