// The mean of the vectors of ids.
#![tactic(auto)]

pub mod part;

ghost use Rattle.std.specs.Prelude.{◌≡◌};
ghost use Rattle.std.proofs.lemmas.List.Edits.{sets};
ghost use Rattle.lists.specs.Lists.{part};
ghost use Rattle.cluster.specs.Clusters.{sum_from, mean_of};
ghost use Rattle.cluster.specs.Vectors.{vectors_in};
ghost use Rattle.cluster.specs.Promises.{BehindVectors};

// Adds the vectors of ids to the part at `at`, in the order of the ids.
fn sum_into(floats: &mut [f32], ids: &[u32], dimension: usize, count: usize, at: usize)
    requires { BehindVectors floats.old ids.now dimension count at dimension }
    ensures { floats.new ≡ sets floats.old at (sum_from (vectors_in dimension count floats.old) (part at dimension floats.old) ids.now) }
{
    for &id in ids {
        part::add(floats, id as usize * dimension, at, dimension);
    }
}

// Writes to the part at `at` the mean of the vectors of ids: their sum from +0.0 over their
// number. `count` vectors are held.
pub fn mean_into(floats: &mut [f32], ids: &[u32], dimension: usize, count: usize, at: usize)
    requires { BehindVectors floats.old ids.now dimension count at dimension }
    ensures { floats.new ≡ sets floats.old at (mean_of dimension (vectors_in dimension count floats.old) ids.now) }
{
    part::zero(floats, at, dimension);
    sum_into(floats, ids, dimension, count, at);
    part::divide(floats, at, dimension, ids.len() as f32);
}
