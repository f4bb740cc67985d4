// The filter of a node: 256 bits in four words.
#![tactic(auto)]

ghost use Rattle.std.specs.Prelude.{◌≡◌, ◌+◌, ◌<◌, ◌≤◌, length};
ghost use Rattle.std.proofs.lemmas.List.Edits.{sets};
ghost use Rattle.lists.specs.Lists.{part};
ghost use Rattle.bloom.specs.Filter.{first_bit, second_bit, has_bit, set_bit, insert_hash, may_contain, empty_filter, union};

use std::array;

// The two bits of a hash.
fn first_bit(hash: u64) -> u64
    ensures { result ≡ first_bit hash }
{
    hash % 256
}

fn second_bit(hash: u64) -> u64
    ensures { result ≡ second_bit hash }
{
    (hash >> 32) * 0x9e37_79b9 % 256
}

// Whether bit k is set.
fn has_bit(filter: &[u64], k: u64) -> bool
    requires filter_len { length filter.now ≡ 4 }
    requires k_bound { k < 256 }
    ensures { result ≡ has_bit filter.now k }
{
    let i = (k / 64) as usize;
    (filter[i] >> (k % 64)) % 2 == 1
}

// Sets bit k.
fn set_bit(filter: &mut [u64], k: u64)
    requires filter_len { length filter.old ≡ 4 }
    requires k_bound { k < 256 }
    ensures { filter.new ≡ set_bit filter.old k }
{
    let i = (k / 64) as usize;
    filter[i] |= 1 << (k % 64);
}

// Sets the two bits of `hash`.
pub fn insert(filter: &mut [u64], hash: u64)
    requires { length filter.old ≡ 4 }
    ensures { filter.new ≡ insert_hash filter.old hash }
{
    let first = first_bit(hash);
    let second = second_bit(hash);
    set_bit(filter, first);
    set_bit(filter, second);
}

// Whether both bits of `hash` are set.
pub fn may_contain(filter: &[u64], hash: u64) -> bool
    requires { length filter.now ≡ 4 }
    ensures { result ≡ may_contain filter.now hash }
{
    let first = first_bit(hash);
    let second = second_bit(hash);
    has_bit(filter, first) & has_bit(filter, second)
}

// The pool of two filters: the bits of both.
pub fn unite(filter: [u64; 4], other: [u64; 4]) -> [u64; 4]
    ensures { result ≡ union filter other }
{
    array::from_fn(|i| filter[i] | other[i])
}

// The filter whose four words begin at `at`.
pub fn words(list: &[u64], at: usize) -> [u64; 4]
    requires { at + 4 ≤ length list.now }
    ensures { result ≡ part at 4 list.now }
{
    array::from_fn(|i| list[at + i])
}

// Writes the four words of a filter from `at` on.
pub fn write_words(list: &mut [u64], at: usize, filter: [u64; 4])
    requires { at + 4 ≤ length list.old }
    ensures { list.new ≡ sets list.old at filter }
{
    let end = at + 4;
    list[at..end].copy_from_slice(&filter);
}

// Clears every bit.
pub fn clear(filter: &mut [u64])
    requires { length filter.old ≡ 4 }
    ensures { filter.new ≡ empty_filter }
{
    filter.fill(0);
}
