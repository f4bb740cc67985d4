// A count in one byte, and that many bytes.
ghost use Rattle.std.specs.Prelude.{◌≤◌, length};
ghost use Rattle.echo_file.specs.Places.{CountedAt};

use crate::{number, skip};
use std::ops::Range;

// The places of the bytes that are counted there, or none where the file ends inside them.
pub fn read_counted(file: &[u8], at: usize) -> Option<Range<usize>>
    requires { at ≤ length file.now }
    ensures { CountedAt file.now at result }
{
    let start = skip::skip(file.len(), at, 1)?;
    let count = number::u8_at(file, at);
    let end = skip::skip(file.len(), start, count)?;
    Some(start..end)
}
