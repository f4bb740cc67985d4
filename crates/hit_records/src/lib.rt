// Hit records: a lent list of structs of id and distance, filled from the two lists that a search filled. The crate `hit_records_c` offers it to C.
#![tactic(auto)]

ghost use Rattle.hit_records.specs.Hits.{Fills};

#[repr(C)]
#[derive(Clone, Copy)]
pub struct Hit {
    pub id: u32,
    pub distance: f32,
}

// Fills the first places of `hits` with the records of the first places of `ids` and `distances`, as many as the hit count.
// Answers 0; or 14, with nothing written, where a list is shorter than the count.
pub fn curator_hits(hits: &mut [Hit], ids: &[u32], distances: &[f32], count: usize) -> u32
    ensures { Fills hits.old ids.now distances.now count result hits.new }
{
    if hits.len() < count || ids.len() < count || distances.len() < count {
        return 14;
    }
    for i in 0..count {
        hits[i] = Hit {
            id: ids[i],
            distance: distances[i],
        };
    }
    0
}
