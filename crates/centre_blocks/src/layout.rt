// Centres are laid out in blocks of sixteen, component by component.
ghost use Rattle.std.specs.Prelude.{◌+◌, ◌*◌, ◌/◌, ◌≤◌, ◌<◌, ◌≡◌, length};
ghost use Rattle.lists.specs.Lists.{part};
ghost use Rattle.cluster.specs.Vectors.{vectors_from};
ghost use Rattle.centre_blocks.specs.Blocks.{centres_in};
ghost use Rattle.centre_blocks.specs.Promises.{ColumnWritten};

// Copies the vector at `from` to every sixteenth place from `at` on.
fn lay_vector(floats: &[f32], from: usize, dimension: usize, blocks: &mut [f32], at: usize)
    requires dimension_in_bounds { from + dimension ≤ length floats.now }
    requires dimension_in_bounds_2 { at + dimension * 16 ≤ length blocks.old + 15 }
    ensures { ColumnWritten dimension at (part from dimension floats.now) blocks.old blocks.new }
{
    for i in 0..dimension {
        blocks[at + i * 16] = floats[from + i];
    }
}

// Lays out the k vectors at `centres_at`.
pub fn lay_out(floats: &[f32], centres_at: usize, k: usize, dimension: usize, blocks: &mut [f32])
    requires dimension_in_bounds { centres_at + k * dimension ≤ length floats.now }
    requires dimension_in_bounds_2 { (k + 15) / 16 * (dimension * 16) ≤ length blocks.old }
    ensures { centres_in dimension k blocks.new ≡ vectors_from dimension k centres_at floats.now }
{
    for c in 0..k {
        lay_vector(
            floats,
            centres_at + c * dimension,
            dimension,
            blocks,
            c / 16 * (dimension * 16) + c % 16,
        );
    }
}
