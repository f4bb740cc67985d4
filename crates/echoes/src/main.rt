// Prints the echo file on standard input. Of a file over 65,536 bytes, which is refused, one byte more is read.
#![tactic(auto)]

use std::io;
use std::io::Read;

fn main(rt: HostRuntime) -> io::Result<()> {
    let mut file = Vec::new(rt.alloc());
    rt.reader().take(65537).read_to_end(&mut file)?;
    printer::print_file(&rt, &file)?;
    Ok(())
}
