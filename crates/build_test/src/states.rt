// States of an index below, at and above each limit (row 4).
use crate::call::{plain, try_build};
use crate::fixture::{example, lists, none, params};
use settings::{Capacities, CuratorParams};
use std::io;
use store::Counts;

fn dimension(rt: &impl Print, dimension: usize) -> io::Result<()> {
    let mut index = example(1, 5, 3, 3);
    index.dimension = dimension;
    plain(rt, index)
}

fn setting(rt: &impl Print, params: CuratorParams) -> io::Result<()> {
    let mut index = example(1, 5, 3, 3);
    index.params = params;
    plain(rt, index)
}

fn capacity(rt: &impl Print, vectors: usize, entries: usize, nodes: usize) -> io::Result<()> {
    let mut index = example(1, 5, 0, 0);
    let capacities = Capacities {
        vectors,
        entries,
        nodes,
        text: 4,
    };
    index.capacities = capacities;
    plain(rt, index)
}

fn count(
    rt: &impl Print,
    vectors: usize,
    entries: usize,
    nodes: usize,
    built: bool,
) -> io::Result<()> {
    let mut index = example(4, 5, 3, 3);
    let counts = Counts {
        vectors,
        entries,
        nodes,
        bytes: 3,
    };
    index.counts = counts;
    index.built = built;
    plain(rt, index)
}

// Row 4. A sound state whose lists are too short by far is 3; an owner that is a mark is 15.
pub fn states(rt: &impl Print) -> io::Result<()> {
    dimension(rt, 0)?;
    dimension(rt, 128)?;
    dimension(rt, 129)?;
    setting(rt, params(0, 1, 5, 4))?;
    setting(rt, params(64, 1, 5, 4))?;
    setting(rt, params(65, 1, 5, 4))?;
    setting(rt, params(2, 4096, 5, 4))?;
    setting(rt, params(2, 4097, 5, 4))?;
    setting(rt, params(2, 1, 0, 4))?;
    setting(rt, params(2, 1, 65537, 4))?;
    setting(rt, params(2, 1, 65538, 4))?;
    setting(rt, params(2, 1, 5, 0))?;
    setting(rt, params(2, 1, 5, 65535))?;
    setting(rt, params(2, 1, 5, 65536))?;
    capacity(rt, 0, 4, 5)?;
    capacity(rt, 4096, 4, 5)?;
    capacity(rt, 4097, 4, 5)?;
    capacity(rt, 4, 16384, 5)?;
    capacity(rt, 4, 16385, 5)?;
    capacity(rt, 4, 4, 0)?;
    capacity(rt, 4, 4, 65537)?;
    capacity(rt, 4, 4, 65538)?;
    count(rt, 4, 3, 0, false)?;
    count(rt, 5, 3, 0, false)?;
    count(rt, 3, 4, 0, false)?;
    count(rt, 3, 5, 0, false)?;
    count(rt, 3, 3, 1, false)?;
    count(rt, 3, 3, 5, true)?;
    count(rt, 3, 3, 6, true)?;
    count(rt, 3, 3, 0, true)?;
    count(rt, 0, 0, 1, true)?;
    count(rt, 1, 1, 1, true)?;
    try_build(rt, example(1, 5, 5, 3), lists(0, 0, 0, 0, 0), none(), false)
}
