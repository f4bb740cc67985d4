// The search over a lent store: a walk, and the first k live ones of its hits (document 01, 'Search'; 02, K10).
#![tactic(auto)]

pub mod rank;

ghost use Rattle.store.specs.Lent.{stored};
ghost use Rattle.walk.specs.Promises.{StoreLent, SearchGives};
ghost use Rattle.walk.specs.Wanted.{about};
ghost use Rattle.best_first_walk.specs.Walks.{Walks};
ghost use Rattle.best_first_search.specs.Ranks.{SearchLent};

use crate::rank::first_hits;
use best_first_walk::{best_first_walk, found_at};
use store::{Counts, Lists, Shape};
use walk::{Damaged, Searched, Wanted};
use whole_walk::whole_walk;

// The walk over the store. Where `ef_search` is at least the node count it cannot be cut, and needs no queue and no distances.
fn walk_store(
    shape: Shape,
    counts: Counts,
    ef_search: usize,
    lists: Lists,
    work: &mut [u32],
    query: &[f32],
    wanted: Wanted,
) -> Result<Searched, Damaged>
    requires { StoreLent shape counts (stored lists) work.old }
    ensures { Walks shape counts ef_search (stored lists.entry) query.now (about wanted.entry) work.old result work.new }
{
    if counts.nodes <= ef_search {
        return whole_walk(shape, counts, lists, work, wanted);
    }
    best_first_walk(shape, counts, ef_search, lists, work, query, wanted)
}

// The walk, and the first k live ones of its hits.
pub fn best_first_search(
    shape: Shape,
    counts: Counts,
    ef_search: usize,
    lists: Lists,
    work: &mut [u32],
    query: &[f32],
    wanted: Wanted,
    k: usize,
    ids: &mut [u32],
    distances: &mut [f32],
) -> Result<Searched, Damaged>
    requires { SearchLent shape counts (stored lists) work.old k ids.old distances.old }
    ensures { SearchGives shape counts ef_search (stored lists.entry) query.now (about wanted.entry) k work.old ids.old distances.old result work.new ids.new distances.new }
{
    let hits_at = shape.hits_at();
    let hits_end = shape.work_size();
    let from = found_at(shape) - hits_at;
    let walked = walk_store(shape, counts, ef_search, lists, work, query, wanted)?;
    let written = first_hits(
        shape,
        counts,
        lists.floats,
        lists.numbers,
        &mut work[hits_at..hits_end],
        query,
        from,
        walked.hits,
        k,
        ids,
        distances,
    );
    Ok(Searched {
        hits: written,
        opened: walked.opened,
        whole: walked.whole,
    })
}
