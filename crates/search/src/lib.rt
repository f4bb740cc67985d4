// The searches of an index: the refusals, the query normalised, and the walk (document 01, 'Search'; 02, K1).
#![tactic(auto)]

ghost use Rattle.std.specs.Prelude.{◌≡◌, ◌++◌};
ghost use Rattle.label.specs.Fnv.{fnv};
ghost use Rattle.vector.specs.Vector.{dot};
ghost use Rattle.store.specs.Lent.{stored};
ghost use Rattle.walk.specs.Wanted.{about, name_of};
ghost use Rattle.curator.specs.Searches.{Searches};
ghost use Rattle.search.specs.Lent.{asking_with, search_checked, SearchReady, looking, leaving, filtered, both, unfiltered, SearchesFor, WalkedFor};

use curator::{CuratorIndex, limits};
use settings::refusal::{InputRefusal, Refusal, StateRefusal, StoreRefusal};
use store::{Lengths, Lists};
use walk::{Label, Searched, Wanted};

// The first refusal whose case holds, of those that come before the walk, or the sum of the query's squares.
fn search_check(
    index: CuratorIndex,
    lent: Lengths,
    work: usize,
    query: &[f32],
    k: usize,
    ids: usize,
    distances: usize,
) -> Result<f32, Refusal>
    ensures { result ≡ search_checked index lent work (asking_with query.entry k ids distances) }
{
    if !limits::state_sound(index) {
        return Err(Refusal::State(StateRefusal::InvalidState));
    }
    if limits::shape_of(index).lists_short(lent, work) {
        return Err(Refusal::Store(StoreRefusal::ListTooShort));
    }
    if !index.built {
        return Err(Refusal::State(StateRefusal::NotBuilt));
    }
    if query.len() != index.dimension {
        return Err(Refusal::Input(InputRefusal::DimensionMismatch));
    }
    let scanned = vector::scan(query);
    if !scanned.finite {
        return Err(Refusal::Input(InputRefusal::NonFiniteInput));
    }
    if (ids < k) | (distances < k) {
        return Err(Refusal::Input(InputRefusal::AnswerTooShort));
    }
    Ok(scanned.squares)
}

// The walk from the query, normalised by `squares`, the sum of its squares.
fn walk_from(
    index: CuratorIndex,
    lists: Lists,
    work: &mut [u32],
    query: &[f32],
    squares: f32,
    wanted: Wanted,
    k: usize,
    ids: &mut [u32],
    distances: &mut [f32],
) -> Result<Searched, Refusal>
    requires search_ready { SearchReady index (stored lists) work.old query.now k ids.old distances.old }
    requires squares_value { squares ≡ dot query.now query.now }
    ensures { WalkedFor index (stored lists.entry) work.old (about wanted.entry)
        (looking query.entry k ids.old distances.old)
        (leaving result work.new ids.new distances.new) }
{
    let start = 0;
    let end = query.len();
    let mut normalized: [f32; 128] = [0.0; 128];
    vector::normalize(query, squares, &mut normalized[start..end]);
    let counts = index.counts;
    let searched = best_first_search::best_first_search(
        limits::shape_of(index),
        counts,
        index.params.ef_search,
        lists,
        work,
        &normalized[start..end],
        wanted,
        k,
        ids,
        distances,
    )?;
    Ok(searched)
}

// One search, by what is wanted.
fn search_wanted(
    index: CuratorIndex,
    lists: Lists,
    work: &mut [u32],
    query: &[f32],
    wanted: Wanted,
    k: usize,
    ids: &mut [u32],
    distances: &mut [f32],
) -> Result<Searched, Refusal>
    ensures { SearchesFor index (stored lists.entry) work.old (about wanted.entry)
        (looking query.entry k ids.old distances.old)
        (leaving result work.new ids.new distances.new) }
{
    let squares = search_check(
        index,
        lists.lengths(),
        work.len(),
        query,
        k,
        ids.len(),
        distances.len(),
    )?;
    walk_from(
        index, lists, work, query, squares, wanted, k, ids, distances,
    )
}

// The label with a name in two parts, which are any bytes.
fn label_of<'a>(first: &'a [u8], second: &'a [u8]) -> Label<'a>
    ensures hash { result.hash ≡ fnv (first.now ++ second.now) }
    ensures name { name_of result ≡ first.now ++ second.now }
{
    Label {
        hash: label::hash_name(first, second),
        first,
        second,
    }
}

// The nearest k documents that have a live vector with a label: a name in two parts, which are any bytes.
pub fn search_filtered(
    index: CuratorIndex,
    lists: Lists,
    work: &mut [u32],
    query: &[f32],
    first: &[u8],
    second: &[u8],
    k: usize,
    ids: &mut [u32],
    distances: &mut [f32],
) -> Result<Searched, Refusal>
    ensures { Searches index (stored lists.entry) work.old
        (filtered query.entry first.entry second.entry k ids.old distances.old)
        (leaving result work.new ids.new distances.new) }
{
    let wanted = Wanted::Label(label_of(first, second));
    search_wanted(index, lists, work, query, wanted, k, ids, distances)
}

// The nearest k documents that have a live vector with both of two labels: names in two parts, which are any bytes.
pub fn search_both(
    index: CuratorIndex,
    lists: Lists,
    work: &mut [u32],
    query: &[f32],
    first: &[u8],
    second: &[u8],
    other_first: &[u8],
    other_second: &[u8],
    k: usize,
    ids: &mut [u32],
    distances: &mut [f32],
) -> Result<Searched, Refusal>
    ensures { Searches index (stored lists.entry) work.old
        (both query.entry first.entry second.entry other_first.entry other_second.entry k ids.old distances.old)
        (leaving result work.new ids.new distances.new) }
{
    let wanted = Wanted::Both(label_of(first, second), label_of(other_first, other_second));
    search_wanted(index, lists, work, query, wanted, k, ids, distances)
}

// The nearest k documents that have a live vector.
pub fn search(
    index: CuratorIndex,
    lists: Lists,
    work: &mut [u32],
    query: &[f32],
    k: usize,
    ids: &mut [u32],
    distances: &mut [f32],
) -> Result<Searched, Refusal>
    ensures { Searches index (stored lists.entry) work.old
        (unfiltered query.entry k ids.old distances.old)
        (leaving result work.new ids.new distances.new) }
{
    search_wanted(
        index,
        lists,
        work,
        query,
        Wanted::Everything,
        k,
        ids,
        distances,
    )
}
