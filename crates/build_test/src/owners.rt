// Owners that are no vector (row 15).
use crate::call::try_build;
use crate::fixture::{Garbage, example, sizes};
use std::io;

fn owner(rt: &impl Print, room: usize, entries: usize, place: usize, value: u32) -> io::Result<()> {
    try_build(
        rt,
        example(1, room, 3, entries),
        sizes(5, 2),
        Garbage { place, value },
        false,
    )
}

// Row 15: owners stand from 4 on, and three entries are held. Garbage at 7, and where no entry is held, is not read; a built index asks no owner. Before 13.
pub fn owners(rt: &impl Print) -> io::Result<()> {
    owner(rt, 5, 3, 4, 2)?;
    owner(rt, 5, 3, 4, 3)?;
    owner(rt, 5, 3, 4, 4)?;
    owner(rt, 5, 3, 6, 2)?;
    owner(rt, 5, 3, 6, 3)?;
    owner(rt, 5, 3, 6, 4294967295)?;
    owner(rt, 5, 3, 7, 3)?;
    owner(rt, 5, 3, 7, 4294967295)?;
    owner(rt, 5, 0, 4, 4294967295)?;
    owner(rt, 4, 3, 6, 3)?;
    let mut built = example(1, 5, 3, 3);
    built.counts.nodes = 5;
    built.built = true;
    try_build(
        rt,
        built,
        sizes(5, 2),
        Garbage { place: 4, value: 3 },
        false,
    )
}
