// The floats of a record.
ghost use Rattle.std.specs.Prelude.{◌≡◌, map, ◌+◌, ◌*◌, ◌≤◌, length, drop};
ghost use Rattle.std.specs.Float.{binary32};
ghost use Rattle.std.specs.Float.Ieee.{of_bits};
ghost use Rattle.lists.specs.Lists.{part};
ghost use Rattle.echo_file.specs.Decode.{bytes_value, numbers};

use crate::number;
use float_bits::from_bits;

// The float at a place.
fn float_at(file: &[u8], at: usize) -> f32
    requires { at + 4 ≤ length file.now }
    ensures { result ≡ of_bits binary32 (bytes_value (part at 4 file.now)) }
{
    from_bits(number::u32_at(file, at) as u32)
}

// Fills a lent list with the floats that start at a place.
pub fn read_floats(file: &[u8], at: usize, out: &mut [f32])
    requires { at + 4 * length out.old ≤ length file.now }
    ensures { out.new ≡ map (of_bits binary32) (numbers (length out.old) (drop at file.now)) }
{
    for (i, x) in out.iter_mut().enumerate() {
        *x = float_at(file, at + 4 * i);
    }
}
