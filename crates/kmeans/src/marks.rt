// The mark of an id is the number of the centre to which it goes. The marks of n ids stand in the
// first n places of the work list.
ghost use Rattle.std.specs.Prelude.{ℕ, ◌+◌, ◌*◌, ◌≤◌, ◌<◌, ◌^◌, ◌≡◌, length, take};
ghost use Rattle.std.proofs.lemmas.List.Edits.{sets};
ghost use Rattle.cluster.specs.Clusters.{nearest};
ghost use Rattle.cluster.specs.Vectors.{vectors_in, vectors_from};
ghost use Rattle.kmeans.specs.Marks.{assignment, with_mark};
ghost use Rattle.cluster.specs.Promises.{BehindVectors};

use crate::blocks;
use nearest_centre::nearest_centre;

// Writes the marks of ids by the k centres at `centres_at`. `count` vectors are held, and
// `centre_of` gives the number of the nearest centre of a vector.
pub fn assign_by<F: Fn(&[f32]) -> usize>(
    floats: &[f32],
    ids: &[u32],
    work: &mut [u32],
    dimension: usize,
    count: usize,
    centres_at: usize,
    k: usize,
    centre_of: F,
)
    requires behind_vectors { BehindVectors floats.now ids.now dimension count centres_at (k * dimension) }
    requires le_k { 1 ≤ k }
    requires k_bound { k < 2 ^ 32 }
    requires ids_in_bounds { length ids.now ≤ length work.old }
    requires callable { (v : _) → length v.now ≡ dimension → F.pre centre_of v }
    requires gives { (v : _) (r : ℕ) → length v.now ≡ dimension → F.post centre_of v r → r ≡ nearest v.now (vectors_from dimension k centres_at floats.now) }
    ensures { work.new ≡ sets work.old 0 (assignment (vectors_in dimension count floats.now) (vectors_from dimension k centres_at floats.now) ids.now) }
{
    for (i, &id) in ids.iter().enumerate() {
        let start = id as usize * dimension;
        let end = start + dimension;
        work[i] = centre_of(&floats[start..end]) as u32;
    }
}

// Writes the marks of ids by the k centres at `centres_at`, in blocks of sixteen where that pays.
// `count` vectors are held.
pub fn assign(
    floats: &[f32],
    ids: &[u32],
    work: &mut [u32],
    dimension: usize,
    count: usize,
    centres_at: usize,
    k: usize,
)
    requires behind_vectors { BehindVectors floats.now ids.now dimension count centres_at (k * dimension) }
    requires le_k { 1 ≤ k }
    requires k_bound { k ≤ 64 }
    requires dimension_bound { dimension ≤ 128 }
    requires ids_in_bounds { length ids.now ≤ length work.old }
    ensures { work.new ≡ sets work.old 0 (assignment (vectors_in dimension count floats.now) (vectors_from dimension k centres_at floats.now) ids.now) }
{
    if blocks::suits(ids.len(), k) {
        blocks::assign_by_blocks(floats, ids, work, dimension, count, centres_at, k);
    } else {
        assign_by(floats, ids, work, dimension, count, centres_at, k, |v| {
            nearest_centre(floats, v, centres_at, k, dimension)
        });
    }
}

// Copies the ids whose mark is j, in order, to the work list from `at` on; the result is how many
// there are.
pub fn gather(ids: &[u32], work: &mut [u32], j: u32, at: usize) -> usize
    requires ids_len_bound { length ids.now ≤ at }
    requires ids_in_bounds { at + length (with_mark j (take (length ids.now) work.old) ids.now) ≤ length work.old }
    ensures value { result ≡ length (with_mark j (take (length ids.now) work.old) ids.now) }
    ensures work_after { work.new ≡ sets work.old at (with_mark j (take (length ids.now) work.old) ids.now) }
{
    let mut found = 0;
    for (i, &id) in ids.iter().enumerate() {
        if work[i] == j {
            work[at + found] = id;
            found += 1;
        }
    }
    found
}
