// Label hashes: FNV-1a of 64 bits.
#![tactic(auto)]

ghost use Rattle.std.specs.Prelude.{◌≡◌, ◌*◌, ◌%◌, ◌^◌, ◌++◌};
ghost use Rattle.label.specs.Fnv.{prime, fnv_step, fnv_from, fnv};

pub mod names;

// FNV-1a's constant for 64 bits: where the hash of a name starts.
pub const OFFSET_BASIS: u64 = 0xcbf2_9ce4_8422_2325;

// a times FNV-1a's prime 100000001b3 for 64 bits, modulo 2^64. The prime is 2^40 + 2^8 + 2^7 + 2^5 + 2^4 + 2 + 1, so the product is a sum of shifted a;
// shifts and sums drop what is past 64 bits. The compiler makes one product of it. By hand: the product is to be the program's own.
fn times_prime(a: u64) -> u64
    ensures { result ≡ (a * prime) % 2 ^ 64 }
{
    let three = a.wrapping_add(a << 1);
    let with_16 = three.wrapping_add(a << 4);
    let with_32 = with_16.wrapping_add(a << 5);
    let with_128 = with_32.wrapping_add(a << 7);
    let with_256 = with_128.wrapping_add(a << 8);
    with_256.wrapping_add(a << 40)
}

// The hash with one byte more: exclusive-or first, then the product.
fn hash_byte(hash: u64, byte: u8) -> u64
    ensures { result ≡ fnv_step hash byte }
{
    times_prime(hash ^ byte as u64)
}

// The label hash from `start` on: the value after the last byte.
pub fn hash_label(start: u64, bytes: &[u8]) -> u64
    ensures { result ≡ fnv_from start bytes.now }
{
    let mut hash = start;
    for &byte in bytes {
        hash = hash_byte(hash, byte);
    }
    hash
}

// The hash of a name in two parts: that of the first, carried on through the second.
pub fn hash_name(first: &[u8], second: &[u8]) -> u64
    ensures { result ≡ fnv (first.now ++ second.now) }
{
    hash_label(hash_label(OFFSET_BASIS, first), second)
}
