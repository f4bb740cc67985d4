// Numbers as digits.
ghost use Rattle.std.specs.Prelude.{◌+◌, ◌<◌, ◌≤◌, ◌≡◌, length};
ghost use Rattle.text.specs.Digits.{digit_char, last_digits, digit_places, decimal_of, hex_of};
ghost use Rattle.text.specs.Lines.{Written};

// The character of a digit below 16.
fn digit_char(d: u64) -> u8
    requires { d < 16 }
    ensures { result ≡ digit_char d }
{
    // By hand: `char::from_digit` gives an Option of a `char`, which is no plainer.
    if d < 10 {
        b'0' + d as u8
    } else {
        b'a' + (d - 10) as u8
    }
}

// How many decimal digits a number has.
fn decimal_places(n: u64) -> usize
    ensures { result ≡ digit_places n }
{
    n.max(1).ilog10() as usize + 1
}

// The last digits of a number in a base up to 16, so many as count says, from the last to the first.
fn write_digits(out: &mut [u8], at: usize, base: u64, count: usize, n: u64) -> usize
    requires base_nonzero { (0 < base) × (base ≤ 16) }
    requires count_in_bounds { at + count ≤ length out.old }
    ensures { Written out.old at (last_digits base count n) out.new result }
{
    let mut rest = n;
    for i in (0..count).rev() {
        out[at + i] = digit_char(rest % base);
        rest /= base;
    }
    at + count
}

// A number in decimal.
pub fn write_decimal(out: &mut [u8], at: usize, n: u64) -> usize
    requires { at + length (decimal_of n) ≤ length out.old }
    ensures { Written out.old at (decimal_of n) out.new result }
{
    write_digits(out, at, 10, decimal_places(n), n)
}

// A number in eight hexadecimal digits.
pub fn write_hex(out: &mut [u8], at: usize, n: u32) -> usize
    requires { at + 8 ≤ length out.old }
    ensures { Written out.old at (hex_of n) out.new result }
{
    write_digits(out, at, 16, 8, n as u64)
}
