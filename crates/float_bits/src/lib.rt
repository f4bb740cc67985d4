// Bit patterns of f32, NaN included: every NaN pattern is the one NaN, whose pattern is 7FC00000.
#![tactic(auto)]

ghost use Rattle.std.specs.Prelude.{◌≡◌};
ghost use Rattle.std.specs.Float.{nan, binary32};
ghost use Rattle.std.specs.Float.Ieee.{of_bits, to_bits};

// The one NaN that the program stores and returns.
pub fn quiet_nan() -> f32
    ensures { result ≡ nan }
{
    0.0 / 0.0
}

// A value with every NaN's pattern made that one. To the proofs all NaNs are the same value.
pub fn canonical(x: f32) -> f32
    ensures { result ≡ x }
{
    if x.is_nan() {
        return quiet_nan();
    }
    x
}

// The value with a pattern.
pub fn from_bits(bits: u32) -> f32
    ensures { result ≡ of_bits binary32 bits }
{
    if bits % 0x8000_0000 > 0x7F80_0000 {
        return quiet_nan();
    }
    f32::from_bits(bits)
}

// The pattern of a value.
pub fn to_bits(x: f32) -> u32
    ensures { result ≡ to_bits binary32 x }
{
    if x.is_nan() {
        return 0x7FC0_0000;
    }
    f32::to_bits(x)
}
