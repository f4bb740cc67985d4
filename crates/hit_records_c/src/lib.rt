// Hit records for C: the one export of the crate `hit_records`, under its own contract.
#![tactic(auto)]

ghost use Rattle.hit_records.specs.Hits.{Fills};

use hit_records::Hit;

// Fills the first places of `hits` with the records of the first places of `ids` and `distances`, as many as the hit count.
// Answers 0; or 14, with nothing written, where a list is shorter than the count.
#[unsafe(no_mangle)]
pub extern "C" fn curator_hits(
    hits: &mut [Hit],
    ids: &[u32],
    distances: &[f32],
    count: usize,
) -> u32
    ensures { Fills hits.old ids.now distances.now count result hits.new }
{
    hit_records::curator_hits(hits, ids, distances, count)
}
