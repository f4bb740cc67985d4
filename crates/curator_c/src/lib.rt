// The index for C and Rust: each function returns 0, or the number of the refusal. The state is a lent list of numbers.
#![tactic(auto)]

ghost use Rattle.std.specs.Prelude.{◌≡◌, ◌<◌, ◌≤◌, ◌^◌, length};
ghost use Rattle.std.proofs.lemmas.List.Edits.{sets};
ghost use Rattle.curator.specs.Lent.{adding};
ghost use Rattle.label.specs.Fnv.{fnv_from};
ghost use Rattle.store.specs.Lent.{lent, store_of};
ghost use Rattle.curator.specs.Outcome.{changed_number, found_number, found_values};
ghost use Rattle.search.specs.Lent.{filtered, both, unfiltered};
ghost use Rattle.settings.specs.Given.{params_of, capacities_of};
ghost use Rattle.curator_c.specs.Results.{storable, Returns, hits_asked};
ghost use Rattle.curator_c.specs.Results.{NewResult, AddResult, TakeBackResult, WithdrawResult, BuildResult, SearchResult, PoolResult};

pub mod state;

use curator::CuratorIndex;
use settings::refusal::Refusal;
use settings::{Capacities, CuratorParams};
use store::Lists;
use walk::Searched;

// What is returned where the call is answered, where a list has too few words, and where the list holds no state.
const ANSWERED: u32 = 0;

const LIST_TOO_SHORT: u32 = 3;

const INVALID_STATE: u32 = 4;

// Returns the number of an answer, and keeps its state in the list.
fn keep(answer: Result<CuratorIndex, Refusal>, state: &mut [usize]) -> u32
    ensures { Returns (storable state.old answer) state.old result state.new }
{
    match answer {
        Err(refusal) => refusal.number(),
        Ok(index) => {
            if state.len() < state::STATE {
                return INVALID_STATE;
            }
            state::write_state(index, state);
            ANSWERED
        }
    }
}

// An index that holds nothing.
#[unsafe(no_mangle)]
pub extern "C" fn curator_new(
    dimension: usize,
    branching_factor: usize,
    max_leaf_size: usize,
    ef_search: usize,
    beam_width: usize,
    vectors: usize,
    entries: usize,
    nodes: usize,
    text: usize,
    state: &mut [usize],
) -> u32
    ensures { NewResult dimension (params_of branching_factor max_leaf_size ef_search beam_width) (capacities_of vectors entries nodes text)
        state.old
        result
        state.new }
{
    let params = CuratorParams {
        branching_factor,
        max_leaf_size,
        ef_search,
        beam_width,
    };
    let capacities = Capacities {
        vectors,
        entries,
        nodes,
        text,
    };
    keep(CuratorIndex::new(dimension, params, capacities), state)
}

// Adds a vector under a document id, with labels, each in two parts: two lengths a label cut them from `bytes`.
#[unsafe(no_mangle)]
pub extern "C" fn curator_add(
    state: &mut [usize],
    floats: &mut [f32],
    numbers: &mut [u32],
    hashes: &mut [u64],
    text: &mut [u8],
    doc_id: u32,
    vector: &[f32],
    lengths: &[u8],
    bytes: &[u8],
) -> u32
    ensures { AddResult state.old (store_of floats.old numbers.old hashes.old text.old)
        (adding doc_id vector.entry lengths.entry bytes.entry)
        result
        state.new (store_of floats.new numbers.new hashes.new text.new) }
{
    match state::state_in(state) {
        None => INVALID_STATE,
        Some(index) => keep(
            index.add(
                floats, numbers, hashes, text, doc_id, vector, lengths, bytes,
            ),
            state,
        ),
    }
}

// Takes back the last vector that is held, with its entries at the end. The store is read only.
#[unsafe(no_mangle)]
pub extern "C" fn curator_take_back(
    state: &mut [usize],
    floats: &[f32],
    numbers: &[u32],
    hashes: &[u64],
    text: &[u8],
) -> u32
    ensures { TakeBackResult state.old (lent floats.entry numbers.entry hashes.entry text.entry)
        result
        state.new }
{
    let lists = Lists {
        floats,
        numbers,
        hashes,
        text,
    };
    match state::state_in(state) {
        None => INVALID_STATE,
        Some(index) => keep(index.take_back(lists), state),
    }
}

// The number of an answer whose state is the one that was lent.
fn returned(answer: Result<CuratorIndex, Refusal>) -> u32
    ensures { result ≡ changed_number answer }
{
    match answer {
        Err(refusal) => refusal.number(),
        Ok(_) => ANSWERED,
    }
}

// Withdraws a document id: no search gives a vector that has it. The state is read only.
#[unsafe(no_mangle)]
pub extern "C" fn curator_withdraw(
    state: &[usize],
    floats: &[f32],
    numbers: &mut [u32],
    hashes: &[u64],
    text: &[u8],
    doc_id: u32,
) -> u32
    ensures { WithdrawResult state.now (store_of floats.now numbers.old hashes.now text.now) doc_id
        result
        (store_of floats.now numbers.new hashes.now text.now) }
{
    match state::state_in(state) {
        None => INVALID_STATE,
        Some(index) => returned(index.withdraw(floats, numbers, hashes, text, doc_id)),
    }
}

// Makes the tree of what is held, once.
#[unsafe(no_mangle)]
pub extern "C" fn curator_build(
    state: &mut [usize],
    floats: &mut [f32],
    numbers: &mut [u32],
    hashes: &mut [u64],
    text: &[u8],
    work: &mut [u32],
) -> u32
    ensures { BuildResult state.old (store_of floats.old numbers.old hashes.old text.now) work.old
        result
        state.new (store_of floats.new numbers.new hashes.new text.now) work.new }
{
    match state::state_in(state) {
        None => INVALID_STATE,
        Some(index) => keep(
            build::build(index, floats, numbers, hashes, text, work),
            state,
        ),
    }
}

// How many hits to ask the search for: k, or more than `ids` has places where the answer list has no room for the answer.
fn hits_asked(answer: usize, ids: usize, k: usize) -> usize
    requires { ids < 2 ^ 63 }
    ensures { result ≡ hits_asked answer ids k }
{
    if answer < 3 { ids + 1 } else { k }
}

// Returns the number of an answer, and puts its values into the list.
fn tell(found: Result<Searched, Refusal>, answer: &mut [usize]) -> u32
    requires { length (found_values found) ≤ length answer.old }
    ensures value { result ≡ found_number found }
    ensures answer_after { answer.new ≡ sets answer.old 0 (found_values found) }
{
    match found {
        Err(refusal) => refusal.number(),
        Ok(searched) => {
            answer[0] = searched.hits;
            answer[1] = searched.opened;
            answer[2] = usize::from(searched.whole);
            ANSWERED
        }
    }
}

// The nearest k documents that have a live vector with a label: a name in two parts.
#[unsafe(no_mangle)]
pub extern "C" fn curator_search_filtered(
    state: &[usize],
    floats: &[f32],
    numbers: &[u32],
    hashes: &[u64],
    text: &[u8],
    work: &mut [u32],
    query: &[f32],
    first: &[u8],
    second: &[u8],
    k: usize,
    ids: &mut [u32],
    distances: &mut [f32],
    answer: &mut [usize],
) -> u32
    ensures { SearchResult state.now (lent floats.entry numbers.entry hashes.entry text.entry) work.old
        (filtered query.entry first.entry second.entry k ids.old distances.old) answer.old
        result
        work.new ids.new distances.new answer.new }
{
    let lists = Lists {
        floats,
        numbers,
        hashes,
        text,
    };
    match state::state_in(state) {
        None => INVALID_STATE,
        Some(index) => {
            let hits = hits_asked(answer.len(), ids.len(), k);
            tell(
                search::search_filtered(
                    index, lists, work, query, first, second, hits, ids, distances,
                ),
                answer,
            )
        }
    }
}

// The nearest k documents that have a live vector with both of two labels: names in two parts.
#[unsafe(no_mangle)]
pub extern "C" fn curator_search_both(
    state: &[usize],
    floats: &[f32],
    numbers: &[u32],
    hashes: &[u64],
    text: &[u8],
    work: &mut [u32],
    query: &[f32],
    first: &[u8],
    second: &[u8],
    other_first: &[u8],
    other_second: &[u8],
    k: usize,
    ids: &mut [u32],
    distances: &mut [f32],
    answer: &mut [usize],
) -> u32
    ensures { SearchResult state.now (lent floats.entry numbers.entry hashes.entry text.entry) work.old
        (both query.entry first.entry second.entry other_first.entry other_second.entry k ids.old distances.old) answer.old
        result
        work.new ids.new distances.new answer.new }
{
    let lists = Lists {
        floats,
        numbers,
        hashes,
        text,
    };
    match state::state_in(state) {
        None => INVALID_STATE,
        Some(index) => {
            let hits = hits_asked(answer.len(), ids.len(), k);
            tell(
                search::search_both(
                    index,
                    lists,
                    work,
                    query,
                    first,
                    second,
                    other_first,
                    other_second,
                    hits,
                    ids,
                    distances,
                ),
                answer,
            )
        }
    }
}

// The nearest k documents that have a live vector.
#[unsafe(no_mangle)]
pub extern "C" fn curator_search(
    state: &[usize],
    floats: &[f32],
    numbers: &[u32],
    hashes: &[u64],
    text: &[u8],
    work: &mut [u32],
    query: &[f32],
    k: usize,
    ids: &mut [u32],
    distances: &mut [f32],
    answer: &mut [usize],
) -> u32
    ensures { SearchResult state.now (lent floats.entry numbers.entry hashes.entry text.entry) work.old
        (unfiltered query.entry k ids.old distances.old) answer.old
        result
        work.new ids.new distances.new answer.new }
{
    let lists = Lists {
        floats,
        numbers,
        hashes,
        text,
    };
    match state::state_in(state) {
        None => INVALID_STATE,
        Some(index) => {
            let hits = hits_asked(answer.len(), ids.len(), k);
            tell(
                search::search(index, lists, work, query, hits, ids, distances),
                answer,
            )
        }
    }
}

// Pools a filter into another: the first four words of `filter` get the bits of the first four of `other` too.
#[unsafe(no_mangle)]
pub extern "C" fn curator_pool(filter: &mut [u64], other: &[u64]) -> u32
    ensures { PoolResult filter.old other.now result filter.new }
{
    if (filter.len() < 4) | (other.len() < 4) {
        return LIST_TOO_SHORT;
    }
    let pool = bloom::unite(bloom::words(filter, 0), bloom::words(other, 0));
    bloom::write_words(filter, 0, pool);
    ANSWERED
}

// The label hash from `start` on: the value after the last byte.
#[unsafe(no_mangle)]
pub extern "C" fn curator_label_hash(start: u64, bytes: &[u8]) -> u64
    ensures { result ≡ fnv_from start bytes.now }
{
    label::hash_label(start, bytes)
}
