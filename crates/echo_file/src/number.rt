// Numbers of a file, low byte first.
ghost use Rattle.std.specs.Prelude.{◌≡◌, ◌+◌, ◌≤◌, ◌<◌, length};
ghost use Rattle.lists.specs.Lists.{total};
ghost use Rattle.echo_file.specs.Places.{NumberAt};

// The number in one byte.
pub fn u8_at(file: &[u8], at: usize) -> usize
    requires { at < length file.now }
    ensures { NumberAt 1 file.now at result }
{
    usize::from(file[at])
}

// The number in two bytes.
pub fn u16_at(file: &[u8], at: usize) -> usize
    requires { at + 2 ≤ length file.now }
    ensures { NumberAt 2 file.now at result }
{
    // By hand: `from_le_bytes` wants the bytes as an array, which is no plainer.
    let low = u8_at(file, at);
    let high = u8_at(file, at + 1);
    low + 256 * high
}

// The number in four bytes.
pub fn u32_at(file: &[u8], at: usize) -> usize
    requires { at + 4 ≤ length file.now }
    ensures { NumberAt 4 file.now at result }
{
    let low = u16_at(file, at);
    let high = u16_at(file, at + 2);
    low + 65536 * high
}

// The sum of some length bytes, of which a record has at most 255.
pub fn total(lengths: &[u8]) -> usize
    requires { length lengths.now < 256 }
    ensures { result ≡ total lengths.now }
{
    let mut sum = 0;
    for &length in lengths {
        sum += usize::from(length);
    }
    sum
}
