// Parts of a float list, written component by component. A part has as many components as the
// dimension.
ghost use Rattle.std.specs.Prelude.{◌+◌, ◌≤◌, ◌≡◌, map, length, replicate};
ghost use Rattle.std.proofs.lemmas.List.Edits.{sets};
ghost use Rattle.std.specs.Float.{binary32};
ghost use Rattle.std.specs.Float.Ieee.{div};
ghost use Rattle.lists.specs.Lists.{part};
ghost use Rattle.vector.specs.Vector.{zero32};
ghost use Rattle.cluster.specs.Clusters.{add_vectors};

// Sets every component at `to` to +0.0.
pub fn zero(floats: &mut [f32], to: usize, dimension: usize)
    requires { to + dimension ≤ length floats.old }
    ensures { floats.new ≡ sets floats.old to (replicate dimension zero32) }
{
    let end = to + dimension;
    floats[to..end].fill(0.0);
}

// Copies the part at `from`, which ends before the one at `to`. By hand: the library's copy of a length that is not constant calls C's memmove, which the
// archive does not ask of its callers.
pub fn copy(floats: &mut [f32], from: usize, to: usize, dimension: usize)
    requires dimension_bound { from + dimension ≤ to }
    requires dimension_in_bounds { to + dimension ≤ length floats.old }
    ensures { floats.new ≡ sets floats.old to (part from dimension floats.old) }
{
    for i in 0..dimension {
        floats[to + i] = floats[from + i];
    }
}

// Adds the part at `from`, which ends before the one at `to`, to that one.
pub fn add(floats: &mut [f32], from: usize, to: usize, dimension: usize)
    requires dimension_bound { from + dimension ≤ to }
    requires dimension_in_bounds { to + dimension ≤ length floats.old }
    ensures { floats.new ≡ sets floats.old to (add_vectors (part to dimension floats.old) (part from dimension floats.old)) }
{
    for i in 0..dimension {
        floats[to + i] += floats[from + i];
    }
}

// Divides each component at `to`. A NaN is stored as 7FC00000.
pub fn divide(floats: &mut [f32], to: usize, dimension: usize, by: f32)
    requires { to + dimension ≤ length floats.old }
    ensures { floats.new ≡ sets floats.old to (map (λ x. div binary32 x by) (part to dimension floats.old)) }
{
    let end = to + dimension;
    for x in &mut floats[to..end] {
        *x = float_bits::canonical(*x / by);
    }
}
