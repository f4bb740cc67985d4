// A record carried out on the index.
ghost use Rattle.std.specs.Prelude.{◌+◌, ◌-◌, ◌*◌, ◌≤◌, length, take, ◌≡◌};
ghost use Rattle.label.specs.Names.{whole_lengths};
ghost use Rattle.store.specs.Lent.{stored, store_of};
ghost use Rattle.curator.specs.Searches.{Searches};
ghost use Rattle.search.specs.Lent.{leaving};
ghost use Rattle.echo_file.specs.Reads.{bytes_between};
ghost use Rattle.load.specs.Step.{Carries, added_by, found_by};
ghost use Rattle.load.specs.Code.{lists, over, Narrow, floats_at, VectorIn, QueryIn, AddsAt, search_at, SearchesAt};

use crate::task;
use crate::task::{Query, Task, Vector};
use curator::CuratorIndex;
use echo_file::floats::read_floats;
use settings::refusal::Refusal;
use store::Lists;
use walk::Searched;

// What came of a record: a refusal, after which the file is left; nothing to print; or an answer. `End` where no record is left. Not a Result: each of the four
// is printed and goes on in its own way.
#[derive(Clone, Copy)]
pub enum Carried {
    End,
    Refused(Refusal),
    Silent {
        loading: Option<CuratorIndex>,
        next: usize,
    },
    Answered {
        index: CuratorIndex,
        next: usize,
        count: usize,
        opened: usize,
        whole: bool,
    },
}

// What an add comes to.
fn added(answer: Result<CuratorIndex, Refusal>, next: usize) -> Carried
    ensures { result ≡ added_by answer next }
{
    match answer {
        Err(refusal) => Carried::Refused(refusal),
        Ok(index) => Carried::Silent {
            loading: Some(index),
            next,
        },
    }
}

// What a search comes to.
fn found(index: CuratorIndex, answer: Result<Searched, Refusal>, next: usize) -> Carried
    ensures { result ≡ found_by index answer next }
{
    match answer {
        Err(refusal) => Carried::Refused(refusal),
        Ok(
            Searched {
                hits,
                opened,
                whole,
            },
        ) => Carried::Answered {
            index,
            next,
            count: hits,
            opened,
            whole,
        },
    }
}

// The floats that start at a place, in front.
fn floats_at(file: &[u8], at: usize, count: usize) -> [f32; 16]
    requires count_bound { count ≤ 16 }
    requires count_in_bounds { at + 4 * count ≤ length file.now }
    ensures room { count ≤ length result }
    ensures front { take count result ≡ floats_at count file.now at }
{
    let mut values = [0.0f32; 16];
    read_floats(file, at, &mut values[..count]);
    values
}

// The lengths of the labels from a place to another, at most 255, as names whose second part is empty, in front.
fn name_lengths(file: &[u8], from: usize, to: usize) -> [u8; 510]
    requires { (from ≤ to) × (to ≤ from + 255) × (to ≤ length file.now) }
    ensures room { 2 * (to - from) ≤ length result }
    ensures front { take (2 * (to - from)) result ≡ whole_lengths (bytes_between from to file.now) }
{
    let count = 2 * (to - from);
    let mut pairs = [0u8; 510];
    label::names::whole_lengths(&file[from..to], &mut pairs[..count]);
    pairs
}

// Adds the vector. The file keeps one length a label.
fn add_vector(
    index: CuratorIndex,
    file: &[u8],
    vector: Vector,
    floats: &mut [f32],
    numbers: &mut [u32],
    hashes: &mut [u64],
    labels: &mut [u8],
) -> Carried
    requires { VectorIn file.now index.dimension vector }
    ensures { AddsAt index file.now vector
        (store_of floats.old numbers.old hashes.old labels.old) result (store_of floats.new numbers.new hashes.new labels.new) }
{
    let count = index.dimension;
    let lengths_at = vector.lengths_at;
    let labels_at = vector.labels_at;
    let place = vector.floats_at;
    let components = floats_at(file, place, count);
    let lengths = name_lengths(file, lengths_at, labels_at);
    let lengths_count = 2 * (labels_at - lengths_at);
    let bytes = &file[labels_at..place];
    let answer = index.add(
        floats,
        numbers,
        hashes,
        labels,
        vector.doc_id,
        &components[..count],
        &lengths[..lengths_count],
        bytes,
    );
    added(answer, vector.next)
}

// Looks up the nearest: of those with the label, or of all.
fn find(
    index: CuratorIndex,
    count: usize,
    file: &[u8],
    query: Query,
    store: Lists,
    work: &mut [u32],
    ids: &mut [u32],
    distances: &mut [f32],
) -> Result<Searched, Refusal>
    requires { QueryIn file.now count query }
    ensures { Searches index (stored store.entry) work.old
        (search_at count file.now query (over (stored store.entry) work.old ids.old distances.old))
        (leaving result work.new ids.new distances.new) }
{
    let place = query.floats_at;
    let components = floats_at(file, place, count);
    let vector = &components[..count];
    match query.label_at {
        Some(label_at) => search::search_filtered(
            index,
            store,
            work,
            vector,
            &file[label_at..place],
            &[],
            query.k,
            ids,
            distances,
        ),
        None => search::search(index, store, work, vector, query.k, ids, distances),
    }
}

// Builds, and looks up the nearest.
fn look_up(
    index: CuratorIndex,
    file: &[u8],
    query: Query,
    floats: &mut [f32],
    numbers: &mut [u32],
    hashes: &mut [u64],
    labels: &[u8],
    work: &mut [u32],
    ids: &mut [u32],
    distances: &mut [f32],
) -> Carried
    requires { QueryIn file.now index.dimension query }
    ensures { SearchesAt index file.now query
        (lists floats.old numbers.old hashes.old labels.now work.old ids.old distances.old) result
        (lists floats.new numbers.new hashes.new labels.now work.new ids.new distances.new) }
{
    match build::build(index, floats, numbers, hashes, labels, work) {
        Err(refusal) => Carried::Refused(refusal),
        Ok(ready) => {
            let store = Lists {
                floats,
                numbers,
                hashes,
                text: labels,
            };
            let answer = find(
                ready,
                index.dimension,
                file,
                query,
                store,
                work,
                ids,
                distances,
            );
            found(ready, answer, query.next)
        }
    }
}

// The record at a place, if one is left; `loading` is the index, none before the settings.
pub fn carry(
    loading: Option<CuratorIndex>,
    file: &[u8],
    at: usize,
    floats: &mut [f32],
    numbers: &mut [u32],
    hashes: &mut [u64],
    labels: &mut [u8],
    work: &mut [u32],
    ids: &mut [u32],
    distances: &mut [f32],
) -> Carried
    requires { Narrow loading }
    ensures { Carries file.now at loading
        (lists floats.old numbers.old hashes.old labels.old work.old ids.old distances.old) result
        (lists floats.new numbers.new hashes.new labels.new work.new ids.new distances.new) }
{
    let task = task::task_at(loading, file, at);
    match task {
        Task::Done(carried) => carried,
        Task::Add(index, vector) => {
            add_vector(index, file, vector, floats, numbers, hashes, labels)
        },
        Task::Find(index, query) => look_up(
            index, file, query, floats, numbers, hashes, labels, work, ids, distances,
        ),
    }
}
