// The means of all clusters, in one pass over the ids. The mark of an id is its cluster's number.
ghost use Rattle.std.specs.Prelude.{ℕ, ◌+◌, ◌*◌, ◌≤◌, ◌<◌, ◌^◌, ◌≡◌, length, get_or};
ghost use Rattle.lists.specs.Partition.{count};
ghost use Rattle.cluster.specs.Clusters.{recentre};
ghost use Rattle.cluster.specs.Vectors.{vectors_in, vectors_from};
ghost use Rattle.cluster.specs.Promises.{BehindVectors};
ghost use Rattle.kmeans.specs.Marks.{assignment};
ghost use Rattle.kmeans.specs.Means.{each_centre, begun, summed, divided};
ghost use Rattle.kmeans.specs.Promises.{Centred};

use mean::part;

// Counts how often each mark occurs, from counts that are 0.
fn count_marks(marks: &[u32], counts: &mut [u32])
    requires by_index { (i : ℕ) → i < length marks.now → get_or marks.now i 0 < length counts.old }
    requires marks_len_bound { length marks.now ≤ 2 ^ 24 }
    requires by_index_2 { (j : ℕ) → get_or counts.old j 0 ≡ 0 }
    ensures { (j : ℕ) → j < length counts.old → get_or counts.new j 0 ≡ count j marks.now }
{
    for &mark in marks {
        counts[mark as usize] += 1;
    }
}

// The centres whose count is not 0 become 0.
fn begin_sums(floats: &mut [f32], counts: &[u32], dimension: usize, centres_at: usize, k: usize)
    requires dimension_in_bounds { centres_at + k * dimension ≤ length floats.old }
    requires k_in_bounds { k ≤ length counts.now }
    ensures { Centred dimension k centres_at floats.old (each_centre k (begun dimension counts.now) (vectors_from dimension k centres_at floats.old)) floats.new }
{
    for j in 0..k {
        if 0 < counts[j] {
            part::zero(floats, centres_at + j * dimension, dimension);
        }
    }
}

// Adds the vector of each id to the centre of its mark, in the order of the ids.
fn add_to_centres(
    floats: &mut [f32],
    ids: &[u32],
    marks: &[u32],
    dimension: usize,
    count: usize,
    centres_at: usize,
    k: usize,
)
    requires behind_vectors { BehindVectors floats.old ids.now dimension count centres_at (k * dimension) }
    requires marks_len { length marks.now ≡ length ids.now }
    requires by_index { (i : ℕ) → i < length marks.now → get_or marks.now i 0 < k }
    ensures { Centred dimension k centres_at floats.old (each_centre k (summed (vectors_in dimension count floats.old) marks.now ids.now) (vectors_from dimension k centres_at floats.old)) floats.new }
{
    for (&id, &mark) in ids.iter().zip(marks) {
        let from = id as usize * dimension;
        let to = centres_at + mark as usize * dimension;
        part::add(floats, from, to, dimension);
    }
}

// The centres whose count is not 0 are divided by it.
fn divide_sums(floats: &mut [f32], counts: &[u32], dimension: usize, centres_at: usize, k: usize)
    requires dimension_in_bounds { centres_at + k * dimension ≤ length floats.old }
    requires k_in_bounds { k ≤ length counts.now }
    requires by_index { (j : ℕ) → j < k → get_or counts.now j 0 ≤ 2 ^ 24 }
    ensures { Centred dimension k centres_at floats.old (each_centre k (divided counts.now) (vectors_from dimension k centres_at floats.old)) floats.new }
{
    for j in 0..k {
        let size = counts[j];
        if 0 < size {
            part::divide(floats, centres_at + j * dimension, dimension, size as f32);
        }
    }
}

// Every centre becomes the mean of its cluster, by the marks of the ids.
pub fn recentre_by_marks(
    floats: &mut [f32],
    ids: &[u32],
    marks: &[u32],
    dimension: usize,
    count: usize,
    centres_at: usize,
    k: usize,
)
    requires behind_vectors { BehindVectors floats.old ids.now dimension count centres_at (k * dimension) }
    requires le_k { 1 ≤ k }
    requires k_bound { k ≤ 64 }
    requires marks_value { marks.now ≡ assignment (vectors_in dimension count floats.old) (vectors_from dimension k centres_at floats.old) ids.now }
    ensures { Centred dimension k centres_at floats.old (recentre dimension (vectors_in dimension count floats.old) ids.now (vectors_from dimension k centres_at floats.old)) floats.new }
{
    let mut counts: [u32; 64] = [0; 64];
    count_marks(marks, &mut counts);
    begin_sums(floats, &counts, dimension, centres_at, k);
    add_to_centres(floats, ids, marks, dimension, count, centres_at, k);
    divide_sums(floats, &counts, dimension, centres_at, k);
}
