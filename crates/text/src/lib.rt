// The printed lines: a hit, the closing line of an answer, a refusal. Each is written into a lent list of bytes from a place on; the place after it is returned.
// No heap: so no line is made by `format!`.
#![tactic(auto)]

mod digits;

ghost use Rattle.std.specs.Prelude.{◌+◌, ◌*◌, ◌≤◌, ◌<◌, length};
ghost use Rattle.text.specs.Digits.{decimal_of};
ghost use Rattle.text.specs.Lines.{Written, hit_line, hit_lines, closing_line, closing_word, number_end, refused_line};

pub use digits::{write_decimal, write_hex};

// The bytes of a text.
pub fn write_bytes(out: &mut [u8], at: usize, text: &[u8]) -> usize
    requires { at + length text.now ≤ length out.old }
    ensures { Written out.old at text.now out.new result }
{
    let end = at + text.len();
    out[at..end].copy_from_slice(text);
    end
}

// A hit: document id and the bits of its distance.
pub fn write_hit(out: &mut [u8], at: usize, id: u32, bits: u32) -> usize
    requires { at + 20 ≤ length out.old }
    ensures { Written out.old at (hit_line id bits) out.new result }
{
    let space = write_decimal(out, at, id as u64);
    out[space] = b' ';
    let feed = write_hex(out, space + 1, bits);
    out[feed] = b'\n';
    feed + 1
}

// The hits in the first places of two lists.
pub fn write_hits(out: &mut [u8], at: usize, ids: &[u32], distances: &[f32], count: usize) -> usize
    requires count_in_bounds { at + 20 * count ≤ length out.old }
    requires count_in_bounds_2 { (count ≤ length ids.now) × (count ≤ length distances.now) }
    ensures { Written out.old at (hit_lines ids.now distances.now count) out.new result }
{
    let mut place = at;
    for i in 0..count {
        place = write_hit(out, place, ids[i], float_bits::to_bits(distances[i]));
    }
    place
}

// A number that ends a line.
fn write_number(out: &mut [u8], at: usize, n: u64) -> usize
    requires { at + length (decimal_of n) < length out.old }
    ensures { Written out.old at (number_end n) out.new result }
{
    let end = write_decimal(out, at, n);
    out[end] = b'\n';
    end + 1
}

// `whole` or `cut`.
fn write_closing_word(out: &mut [u8], at: usize, whole: bool) -> usize
    requires { at + 6 ≤ length out.old }
    ensures { Written out.old at (closing_word whole) out.new result }
{
    if whole {
        write_bytes(out, at, b"whole ")
    } else {
        write_bytes(out, at, b"cut ")
    }
}

// The closing line of an answer: whether it is whole, and the nodes opened.
pub fn write_closing(out: &mut [u8], at: usize, whole: bool, opened: usize) -> usize
    requires { at + 27 ≤ length out.old }
    ensures { Written out.old at (closing_line whole opened) out.new result }
{
    let number = write_closing_word(out, at, whole);
    write_number(out, number, opened as u64)
}

// A refusal's number.
pub fn write_refused(out: &mut [u8], at: usize, number: u32) -> usize
    requires { at + 19 ≤ length out.old }
    ensures { Written out.old at (refused_line number) out.new result }
{
    let digits = write_bytes(out, at, b"refused ");
    write_number(out, digits, number as u64)
}
