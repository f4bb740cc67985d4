// The records of an echo file (document 01, 'The echo file and its printer'), read one at a time.
#![tactic(auto)]

ghost use Rattle.echo_file.specs.Places.{IsMark};
ghost use Rattle.echo_file.specs.Reads.{Reads};

mod body;
mod counted;
pub mod floats;
mod number;
mod skip;

// What the reader has to know of the records before: the dimension, 0 before settings.
#[derive(Clone, Copy)]
pub struct Known {
    pub dimension: usize,
}

// A record by the places of its lists in the file. A list ends where the next one starts, the floats at `next`, where the next record starts.
#[derive(Clone, Copy)]
pub enum Located {
    Settings {
        dimension: usize,
        branching_factor: usize,
        max_leaf_size: usize,
        ef_search: usize,
        beam_width: usize,
        next: usize,
    },
    Vector {
        doc_id: u32,
        lengths_at: usize,
        labels_at: usize,
        floats_at: usize,
        next: usize,
    },
    Filtered {
        k: usize,
        label_at: usize,
        floats_at: usize,
        next: usize,
    },
    Search {
        k: usize,
        floats_at: usize,
        next: usize,
    },
}

// The four marks.
#[derive(Clone, Copy)]
enum Mark {
    Settings,
    Vector,
    Filtered,
    Search,
}

// The mark of two bytes, 5A 01, 5A 02, 5A 04 or 5A 05, as a number, low byte first.
fn mark_of(number: usize) -> Option<Mark>
    ensures { IsMark number result }
{
    match number {
        0x015A => Some(Mark::Settings),
        0x025A => Some(Mark::Vector),
        0x045A => Some(Mark::Filtered),
        0x055A => Some(Mark::Search),
        _ => None,
    }
}

// The record that starts at a place; none where the file has an unknown mark there or ends inside the record (refusal 16).
pub fn read_record(known: Known, file: &[u8], at: usize) -> Option<Located>
    ensures { Reads known file.now at result }
{
    let start = skip::skip(file.len(), at, 2)?;
    match mark_of(number::u16_at(file, at))? {
        Mark::Settings => body::read_settings(file, start),
        Mark::Vector => body::read_vector(known, file, start),
        Mark::Filtered => body::read_filtered(known, file, start),
        Mark::Search => body::read_search(known, file, start),
    }
}
