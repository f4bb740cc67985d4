// The marks of ids by centres that are laid out in blocks of sixteen.
ghost use Rattle.std.specs.Prelude.{◌*◌, ◌≤◌, ◌≡◌, ◌&&◌, leb, length};
ghost use Rattle.std.proofs.lemmas.List.Edits.{sets};
ghost use Rattle.cluster.specs.Vectors.{vectors_in, vectors_from};
ghost use Rattle.cluster.specs.Promises.{BehindVectors};
ghost use Rattle.kmeans.specs.Marks.{assignment};

use crate::marks::assign_by;
use centre_blocks::layout::lay_out;
use centre_blocks::nearest_in_blocks;

// Whether k centres are laid out for n ids: there are so many of both that it saves more than it
// costs.
pub fn suits(n: usize, k: usize) -> bool
    ensures { result ≡ (leb 32 n && leb 8 k) }
{
    32 <= n && 8 <= k
}

// Lays out the k centres at `centres_at`, which fit in 8,192 floats, and writes the marks of ids by
// them.
pub fn assign_by_blocks(
    floats: &[f32],
    ids: &[u32],
    work: &mut [u32],
    dimension: usize,
    count: usize,
    centres_at: usize,
    k: usize,
)
    requires behind_vectors { BehindVectors floats.now ids.now dimension count centres_at (k * dimension) }
    requires le_k { 1 ≤ k }
    requires k_bound { k ≤ 64 }
    requires dimension_bound { dimension ≤ 128 }
    requires ids_in_bounds { length ids.now ≤ length work.old }
    ensures { work.new ≡ sets work.old 0 (assignment (vectors_in dimension count floats.now) (vectors_from dimension k centres_at floats.now) ids.now) }
{
    let mut blocks: [f32; 8192] = [0.0; 8192];
    lay_out(floats, centres_at, k, dimension, &mut blocks);
    assign_by(floats, ids, work, dimension, count, centres_at, k, |v| {
        nearest_in_blocks(&blocks, v, k)
    });
}
