// The square root of an f32, rounded to nearest, ties to even, from whole numbers alone.
// The input, in units of 2^-300, is a radicand of 49 or 50 binary digits times an even power of two. Its integer root has 25 digits, of which the
// last one rounds: a half of the power's exponent goes to the root's exponent.
#![tactic(auto)]

ghost use Rattle.std.specs.Prelude.{◌+◌, ◌*◌, ◌^◌, ◌%◌, ◌<◌, ◌≤◌, ◌≡◌};
ghost use Rattle.square_root.specs.Root.{Root, Nearest, magnitude};

use float_bits::quiet_nan;

// About the root of a significand of 24 digits, as a number of 25 digits: a cubic in the digits below the leading one, good to one part in 9,000.
fn guessed_root(m: u32) -> u64
    requires { (2 ^ 23 ≤ m) × (m < 2 ^ 24) }
    ensures { (2 ^ 24 ≤ result) × (result ≤ 2 ^ 25) }
{
    let below = (m - 0x0080_0000) as u64;
    let cubic = 0x001B_3703 - 0x0006_1B11 * below / 0x0080_0000;
    let square = 0x007F_2341 - cubic * below / 0x0080_0000;
    0x0100_06C3 + square * below / 0x0080_0000
}

// The integer root, by Newton's steps. The first leads from any guess to the root or above it, mostly to the root; the others lead down while s * s is
// above n, and never below the root.
fn integer_root(n: u64, guess: u64) -> u64
    requires n_bound { n < 2 ^ 50 }
    requires bound { (2 ^ 24 ≤ guess) × (guess ≤ 2 ^ 26) }
    ensures { (result * result ≤ n) × (n < (result + 1) * (result + 1)) }
{
    let mut s = (guess + n / guess) / 2;
    // By hand: no index is counted; the root comes nearer each turn.
    while n < s * s {
        s = (s + n / s) / 2;
    }
    s
}

// The pattern of the root of n * 2^(2k), rounded. An odd integer root is above the halfway point, and a carry out of the 24 digits goes into the exponent.
fn rounded_root(n: u64, k: u32, guess: u64) -> u32
    requires bound { (2 ^ 48 ≤ n) × (n < 2 ^ 50) × (n % 2 ≡ 0) × (k ≤ 252) }
    requires bound_2 { (2 ^ 24 ≤ guess) × (guess ≤ 2 ^ 26) }
    ensures { Nearest (n * (2 ^ k * 2 ^ k)) result }
{
    let s = integer_root(n, guess);
    k * 0x0080_0000 + ((s + 1) / 2) as u32
}

// The same of m * 2^(e + 25), for a significand of 24 digits. The factor B505 / 8000 is about the root of two.
fn scaled_root(m: u32, e: u32) -> u32
    requires { (2 ^ 23 ≤ m) × (m < 2 ^ 24) × (e ≤ 379) }
    ensures { Nearest (m * 2 ^ (e + 25)) result }
{
    let guess = guessed_root(m);
    if e % 2 == 0 {
        return rounded_root(m as u64 * 0x0200_0000, e / 2, guess);
    }
    rounded_root(m as u64 * 0x0400_0000, e / 2, guess * 0xB505 / 0x8000)
}

// The same by the input's pattern. A subnormal's leading digit is moved to where a normal one has it.
fn root_pattern(b: u32) -> u32
    requires { (0 < b) × (b < 0x7F800000) }
    ensures { Nearest (magnitude b * 2 ^ 151) result }
{
    let field = b / 0x0080_0000;
    if field == 0 {
        let up = b.leading_zeros() - 8;
        return scaled_root(b << up, 126 - up);
    }
    scaled_root(0x0080_0000 + b % 0x0080_0000, field + 125)
}

// IEEE 754's square root.
pub fn sqrt(x: f32) -> f32
    ensures { Root x result }
{
    if x.is_nan() {
        return quiet_nan();
    }
    let bits = f32::to_bits(x);
    // Zero keeps its sign.
    if bits % 0x8000_0000 == 0 {
        return x;
    }
    // Below zero the sign's bit is set.
    if 0x7F80_0000 < bits {
        return quiet_nan();
    }
    // Infinity stays.
    if bits == 0x7F80_0000 {
        return x;
    }
    f32::from_bits(root_pattern(bits))
}
