// The total order of IEEE 754 as an order of u32 keys.
#![tactic(auto)]

ghost use Rattle.std.specs.Prelude.{◌≡◌};
ghost use Rattle.total_order.specs.TotalOrder.{key_of, of_key};

use float_bits::{from_bits, to_bits};

// The key of x: its bits, turned so that keys grow in total order.
pub fn key(x: f32) -> u32
    ensures { result ≡ key_of x }
{
    let bits = to_bits(x);
    if bits >= 0x8000_0000 {
        return 0xFFFF_FFFF - bits;
    }
    bits + 0x8000_0000
}

// The value with the key k.
pub fn from_key(k: u32) -> f32
    ensures { result ≡ of_key k }
{
    if k >= 0x8000_0000 {
        return from_bits(k - 0x8000_0000);
    }
    from_bits(0xFFFF_FFFF - k)
}
