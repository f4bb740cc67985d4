// Lists one place too short, just long enough and with a place to spare (row 3).
use crate::call::try_build;
use crate::fixture::{example, lists, none};
use std::io;

fn lengths(
    rt: &impl Print,
    floats: usize,
    numbers: usize,
    hashes: usize,
    work: usize,
) -> io::Result<()> {
    try_build(
        rt,
        example(1, 5, 3, 3),
        lists(floats, numbers, hashes, 4, work),
        none(),
        false,
    )
}

// Row 3: 22 floats, 63 numbers, 24 hashes, 4 bytes of label text and 27 places of work are just enough. Before 12 and before the success of a built index.
pub fn list_lengths(rt: &impl Print) -> io::Result<()> {
    lengths(rt, 21, 63, 24, 27)?;
    lengths(rt, 22, 62, 24, 27)?;
    lengths(rt, 22, 63, 23, 27)?;
    lengths(rt, 22, 63, 24, 26)?;
    lengths(rt, 22, 63, 24, 27)?;
    lengths(rt, 23, 63, 24, 27)?;
    lengths(rt, 22, 64, 24, 27)?;
    lengths(rt, 22, 63, 25, 27)?;
    lengths(rt, 22, 63, 24, 28)?;
    try_build(
        rt,
        example(1, 5, 0, 0),
        lists(22, 63, 24, 4, 26),
        none(),
        false,
    )?;
    let mut built = example(1, 5, 3, 3);
    built.counts.nodes = 5;
    built.built = true;
    try_build(rt, built, lists(22, 63, 24, 4, 26), none(), false)?;
    try_build(rt, built, lists(22, 63, 24, 4, 27), none(), false)
}
