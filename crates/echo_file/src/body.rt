// What comes after each mark. A file that ends inside the record leaves the reader at once.
ghost use Rattle.std.specs.Prelude.{◌≤◌, length, drop};
ghost use Rattle.echo_file.specs.Decode.{decode_settings, decode_vector, decode_filtered, decode_unfiltered};
ghost use Rattle.echo_file.specs.Places.{Shows, ShowsAlways};

use crate::{Known, Located, counted, number, skip};
use std::ops::Range;

// Settings: D, B, leaf size, ef, beam.
pub fn read_settings(file: &[u8], at: usize) -> Option<Located>
    requires { at ≤ length file.now }
    ensures { ShowsAlways file.now at (decode_settings (drop at file.now)) result }
{
    let next = skip::skip(file.len(), at, 20)?;
    Some(Located::Settings {
        dimension: number::u32_at(file, at),
        branching_factor: number::u32_at(file, at + 4),
        max_leaf_size: number::u32_at(file, at + 8),
        ef_search: number::u32_at(file, at + 12),
        beam_width: number::u32_at(file, at + 16),
        next,
    })
}

// A vector: document id, label count, length bytes, label bytes, floats.
pub fn read_vector(known: Known, file: &[u8], at: usize) -> Option<Located>
    requires { at ≤ length file.now }
    ensures { Shows known file.now at (decode_vector known (drop at file.now)) result }
{
    let count_at = skip::skip(file.len(), at, 4)?;
    let Range {
        start: lengths_at,
        end: labels_at,
    } = counted::read_counted(file, count_at)?;
    let total = number::total(&file[lengths_at..labels_at]);
    let floats_at = skip::skip(file.len(), labels_at, total)?;
    let next = skip::skip_floats(file.len(), floats_at, known.dimension)?;
    Some(Located::Vector {
        doc_id: number::u32_at(file, at) as u32,
        lengths_at,
        labels_at,
        floats_at,
        next,
    })
}

// A filtered search: k, label length, label, floats.
pub fn read_filtered(known: Known, file: &[u8], at: usize) -> Option<Located>
    requires { at ≤ length file.now }
    ensures { Shows known file.now at (decode_filtered known (drop at file.now)) result }
{
    let length_at = skip::skip(file.len(), at, 2)?;
    let Range {
        start: label_at,
        end: floats_at,
    } = counted::read_counted(file, length_at)?;
    let next = skip::skip_floats(file.len(), floats_at, known.dimension)?;
    Some(Located::Filtered {
        k: number::u16_at(file, at),
        label_at,
        floats_at,
        next,
    })
}

// A search: k, floats.
pub fn read_search(known: Known, file: &[u8], at: usize) -> Option<Located>
    requires { at ≤ length file.now }
    ensures { Shows known file.now at (decode_unfiltered known (drop at file.now)) result }
{
    let floats_at = skip::skip(file.len(), at, 2)?;
    let next = skip::skip_floats(file.len(), floats_at, known.dimension)?;
    Some(Located::Search {
        k: number::u16_at(file, at),
        floats_at,
        next,
    })
}
