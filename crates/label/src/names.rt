// The names of an add, each in two parts: two lengths a name cut them from the label bytes. Their hashes, and their text with its starts and lengths.
ghost use Rattle.std.specs.Prelude.{◌≡◌, ◌+◌, ◌-◌, ◌*◌, ◌/◌, ◌%◌, ◌≤◌, length, ◌==◌};
ghost use Rattle.std.proofs.lemmas.List.Edits.{sets};
ghost use Rattle.lists.specs.Lists.{part, total};
ghost use Rattle.label.specs.Fnv.{fnv};
ghost use Rattle.label.specs.Names.{names_of, lengths_fit, hashes_of_labels, whole_lengths, summed_pairs, starts_by_lengths};

use crate::{OFFSET_BASIS, hash_byte};

// Whether the lengths sum to `sum`. What is left of the sum is counted down, so nothing overflows.
fn sums_to(lengths: &[u8], sum: usize) -> bool
    ensures { result ≡ (total lengths.now == sum) }
{
    let mut left = sum;
    for &byte in lengths {
        let next = byte as usize;
        if left < next {
            return false;
        }
        left -= next;
    }
    left == 0
}

// Whether the lengths part so many bytes into names: two lengths a name, and together the bytes.
pub fn lengths_fit(lengths: &[u8], bytes: usize) -> bool
    ensures { result ≡ lengths_fit lengths.now bytes }
{
    (lengths.len() % 2 == 0) & sums_to(lengths, bytes)
}

// How many labels have these lengths, two each.
pub fn label_count(lengths: &[u8]) -> usize
    ensures { result ≡ length lengths.now / 2 }
{
    lengths.len() / 2
}

// Copies the name that goes from a start to an end into the text, each byte `place` places on, and answers its hash: the name's second part stands right
// behind its first.
fn copy_and_hash(text: &mut [u8], place: usize, bytes: &[u8], start: usize, end: usize) -> u64
    requires { (start ≤ end) × (end ≤ length bytes.now) × (place + end ≤ length text.old) }
    ensures { (result ≡ fnv (part start (end - start) bytes.now))
        × (text.new ≡ sets text.old (place + start) (part start (end - start) bytes.now)) }
{
    let mut hash = OFFSET_BASIS;
    for i in start..end {
        let byte = bytes[i];
        text[place + i] = byte;
        hash = hash_byte(hash, byte);
    }
    hash
}

// Writes each name's hash, and the bytes of the names after the `held` bytes of the text: they stand one behind the other as they came. A part starts where
// the one before it ended.
pub fn write_hashes(
    hashes: &mut [u64],
    place: usize,
    text: &mut [u8],
    held: usize,
    lengths: &[u8],
    bytes: &[u8],
)
    requires lengths_in_bounds { (place + length lengths.now / 2 ≤ length hashes.old) × (held + length bytes.now ≤ length text.old) }
    requires lengths_len { (length lengths.now % 2 ≡ 0) × (total lengths.now ≡ length bytes.now) }
    ensures { (hashes.new ≡ sets hashes.old place (hashes_of_labels (names_of lengths.now bytes.now)))
        × (text.new ≡ sets text.old held bytes.now) }
{
    let labels = label_count(lengths);
    let mut start = 0;
    for i in 0..labels {
        let middle = start + lengths[2 * i] as usize;
        let end = middle + lengths[2 * i + 1] as usize;
        hashes[place + i] = copy_and_hash(text, held, bytes, start, end);
        start = end;
    }
}

// Writes where each name's text stands: its start from place `starts` on, its length from place `sizes` on, `held` bytes standing before the first. A name
// starts where the one before it ended. Label text has at most 4,177,920 bytes (02, K4), so a start fits 32 bits.
pub fn write_places(numbers: &mut [u32], starts: usize, sizes: usize, held: usize, lengths: &[u8])
    requires { (starts + length lengths.now / 2 ≤ sizes) × (sizes + length lengths.now / 2 ≤ length numbers.old) × (held + total lengths.now ≤ 4177920) }
    ensures { numbers.new ≡ sets (sets numbers.old starts (starts_by_lengths held (summed_pairs lengths.now)))
        sizes (summed_pairs lengths.now) }
{
    let labels = label_count(lengths);
    let mut start = held;
    for i in 0..labels {
        let size = lengths[2 * i] as u32 + lengths[2 * i + 1] as u32;
        numbers[starts + i] = start as u32;
        numbers[sizes + i] = size;
        start += size as usize;
    }
}

// Writes the lengths of names whose second part is empty: each length, and a 0 after it.
pub fn whole_lengths(lengths: &[u8], pairs: &mut [u8])
    requires { 2 * length lengths.now ≡ length pairs.old }
    ensures { pairs.new ≡ whole_lengths lengths.now }
{
    for (i, &length) in lengths.iter().enumerate() {
        pairs[2 * i] = length;
        pairs[2 * i + 1] = 0;
    }
}
