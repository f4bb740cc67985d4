// What a record asks for: found with no list lent.
ghost use Rattle.std.specs.Prelude.{◌≡◌, ◌≤◌};
ghost use Rattle.load.specs.Step.{Carries, OpensIndex};
ghost use Rattle.load.specs.Code.{Narrow, CarriesFirst, CarriesNext, Asks, task_of};

use crate::carry::Carried;
use curator::CuratorIndex;
use echo_file::{Known, Located, read_record};
use settings::refusal::{InputRefusal, Refusal, SettingsRefusal};
use settings::{Capacities, CuratorParams};

// A vector to be added: where its length bytes, label bytes and floats start in the file, and where the file goes on.
#[derive(Clone, Copy)]
pub struct Vector {
    pub doc_id: u32,
    pub lengths_at: usize,
    pub labels_at: usize,
    pub floats_at: usize,
    pub next: usize,
}

// A search: where its label, if it is for one, and its floats start, and where the file goes on.
#[derive(Clone, Copy)]
pub struct Query {
    pub k: usize,
    pub label_at: Option<usize>,
    pub floats_at: usize,
    pub next: usize,
}

// What there is to do of a record: no more than what came of it, an add or a search. Three, as each is lent other lists.
#[derive(Clone, Copy)]
pub enum Task {
    Done(Carried),
    Add(CuratorIndex, Vector),
    Find(CuratorIndex, Query),
}

// Settings that come first open the index. The lists have no room for a dimension above 16.
fn open(dimension: usize, params: CuratorParams, next: usize) -> Carried
    ensures { OpensIndex dimension params next result }
{
    let room = Capacities {
        vectors: 128,
        entries: 256,
        nodes: 512,
        text: 65_280,
    };
    match CuratorIndex::new(dimension, params, room) {
        Err(refusal) => Carried::Refused(refusal),
        Ok(_) if 16 < dimension => {
            Carried::Refused(Refusal::Settings(SettingsRefusal::InvalidConfig))
        }
        Ok(index) => Carried::Silent {
            loading: Some(index),
            next,
        },
    }
}

// The first record has to be settings.
fn read_first(file: &[u8], at: usize) -> Carried
    ensures { CarriesFirst file.now at result }
{
    let Some(located) = read_record(Known { dimension: 0 }, file, at) else {
        return Carried::Refused(Refusal::Input(InputRefusal::BadRecord));
    };
    let Located::Settings {
        dimension,
        branching_factor,
        max_leaf_size,
        ef_search,
        beam_width,
        next,
    } = located
    else {
        return Carried::Refused(Refusal::Input(InputRefusal::SettingsOrder));
    };
    let params = CuratorParams {
        branching_factor,
        max_leaf_size,
        ef_search,
        beam_width,
    };
    open(dimension, params, next)
}

// Of a record after the settings.
fn task_of(index: CuratorIndex, located: Located) -> Task
    ensures { result ≡ task_of index located }
{
    match located {
        Located::Settings { .. } => {
            Task::Done(Carried::Refused(Refusal::Input(InputRefusal::SettingsOrder)))
        }
        Located::Vector {
            doc_id,
            lengths_at,
            labels_at,
            floats_at,
            next,
        } => Task::Add(
            index,
            Vector {
                doc_id,
                lengths_at,
                labels_at,
                floats_at,
                next,
            },
        ),
        Located::Filtered {
            k,
            label_at,
            floats_at,
            next,
        } => Task::Find(
            index,
            Query {
                k,
                label_at: Some(label_at),
                floats_at,
                next,
            },
        ),
        Located::Search { k, floats_at, next } => Task::Find(
            index,
            Query {
                k,
                label_at: None,
                floats_at,
                next,
            },
        ),
    }
}

// A record after the settings.
fn read_next(index: CuratorIndex, file: &[u8], at: usize) -> Task
    requires { index.dimension ≤ 16 }
    ensures { Asks file.now (CarriesNext index file.now at) result }
{
    let known = Known {
        dimension: index.dimension,
    };
    let Some(located) = read_record(known, file, at) else {
        return Task::Done(Carried::Refused(Refusal::Input(InputRefusal::BadRecord)));
    };
    task_of(index, located)
}

// The record at a place, if one is left; `loading` is the index, none before the settings.
pub fn task_at(loading: Option<CuratorIndex>, file: &[u8], at: usize) -> Task
    requires { Narrow loading }
    ensures { Asks file.now (Carries file.now at loading) result }
{
    if 65536 < file.len() {
        return Task::Done(Carried::Refused(Refusal::Input(InputRefusal::FileTooLong)));
    }
    if file.len() <= at {
        return Task::Done(Carried::End);
    }
    match loading {
        None => Task::Done(read_first(file, at)),
        Some(index) => read_next(index, file, at),
    }
}
