// Prints each of the echo files on standard input, and a line with a dash after each. Before a file stands its length in four bytes, low byte first. The
// files and what must be printed of them are put together by tools/replay.py.
#![tactic(auto)]

use std::io;
use std::io::Read;

// Prints the file of so many bytes, or of those that are left where they are fewer.
fn replay_file(
    rt: &(impl Print + AllocGlobal),
    input: &mut impl Read,
    length: u64,
) -> io::Result<()> {
    let mut file = Vec::new(rt.alloc());
    input.take(length).read_to_end(&mut file)?;
    printer::print_file(rt, &file)?;
    println!(rt; "-")
}

// The next file; whether there was one.
fn replay_next(rt: &(impl Print + AllocGlobal), input: &mut impl Read) -> io::Result<bool> {
    let mut head = Vec::new(rt.alloc());
    input.by_ref().take(4).read_to_end(&mut head)?;
    let [a, b, c, d] = head.as_slice() else {
        return Ok(false);
    };
    let length = u64::from(u32::from_le_bytes([*a, *b, *c, *d]));
    replay_file(rt, input, length.min(65537))?;
    Ok(true)
}

// A proved loop has to end, so it counts its turns, up to a number that no input uses up.
fn main(rt: HostRuntime) -> io::Result<()> {
    let mut input = rt.reader();
    for _ in 0..u64::MAX {
        if !replay_next(&rt, &mut input)? {
            break;
        }
    }
    Ok(())
}
