// Three rounds of k-means over the vectors of ids. The centres stand in the float list behind the
// vectors, `count` of which are held. Of the work list the first n places, which hold the marks of
// the n ids, are written.
#![tactic(auto)]

pub mod blocks;
pub mod marks;
pub mod means;

ghost use Rattle.std.specs.Prelude.{◌*◌, ◌≤◌, length};
ghost use Rattle.cluster.specs.Clusters.{first_centres, recentre};
ghost use Rattle.cluster.specs.Vectors.{vectors_in, vectors_from};
ghost use Rattle.cluster.specs.Promises.{BehindVectors};
ghost use Rattle.lists.specs.Frame.{AlikeBut};
ghost use Rattle.kmeans.specs.Promises.{Centred, Clustered};

// Centre i begins as the vector of id number i times (n / k).
fn first_centres(
    floats: &mut [f32],
    ids: &[u32],
    dimension: usize,
    count: usize,
    centres_at: usize,
    k: usize,
)
    requires behind_vectors { BehindVectors floats.old ids.now dimension count centres_at (k * dimension) }
    requires le_k { 1 ≤ k }
    requires k_in_bounds { k ≤ length ids.now }
    ensures { Centred dimension k centres_at floats.old (first_centres (vectors_in dimension count floats.old) ids.now k) floats.new }
{
    let step = ids.len() / k;
    for i in 0..k {
        let id = ids[i * step] as usize;
        mean::part::copy(
            floats,
            id * dimension,
            centres_at + i * dimension,
            dimension,
        );
    }
}

// Each id goes to its nearest centre, then the centres become the means.
fn round(
    floats: &mut [f32],
    ids: &[u32],
    work: &mut [u32],
    dimension: usize,
    count: usize,
    centres_at: usize,
    k: usize,
)
    requires behind_vectors { BehindVectors floats.old ids.now dimension count centres_at (k * dimension) }
    requires le_k { 1 ≤ k }
    requires k_bound { k ≤ 64 }
    requires dimension_bound { dimension ≤ 128 }
    requires ids_in_bounds { 2 * length ids.now ≤ length work.old }
    ensures centred { Centred dimension k centres_at floats.old (recentre dimension (vectors_in dimension count floats.old) ids.now (vectors_from dimension k centres_at floats.old)) floats.new }
    ensures alike_but { AlikeBut 0 (2 * length ids.now) work.old work.new }
{
    marks::assign(floats, ids, work, dimension, count, centres_at, k);
    means::recentre_by_marks(
        floats,
        ids,
        &work[..ids.len()],
        dimension,
        count,
        centres_at,
        k,
    );
}

// The third assignment is to the centres of the second round; its marks are the clusters.
pub fn simple_kmeans(
    floats: &mut [f32],
    ids: &[u32],
    work: &mut [u32],
    dimension: usize,
    count: usize,
    centres_at: usize,
    k: usize,
)
    requires behind_vectors { BehindVectors floats.old ids.now dimension count centres_at (k * dimension) }
    requires le_k { 1 ≤ k }
    requires k_in_bounds { k ≤ length ids.now }
    requires k_bound { k ≤ 64 }
    requires dimension_bound { dimension ≤ 128 }
    requires ids_in_bounds { 2 * length ids.now ≤ length work.old }
    ensures { Clustered dimension count centres_at k ids.now floats.old floats.new work.old work.new }
{
    first_centres(floats, ids, dimension, count, centres_at, k);
    round(floats, ids, work, dimension, count, centres_at, k);
    round(floats, ids, work, dimension, count, centres_at, k);
    marks::assign(floats, ids, work, dimension, count, centres_at, k);
}
