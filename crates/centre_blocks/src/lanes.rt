// Sums of products of one vector with the sixteen centres of a block, side by side: sixteen
// components, one of each centre, stand next to each other.
ghost use Rattle.std.specs.Prelude.{ℕ, ◌+◌, ◌*◌, ◌≤◌, ◌<◌, ◌≡◌, length, get_or};
ghost use Rattle.std.specs.Float.{nan};
ghost use Rattle.lists.specs.Lists.{part};
ghost use Rattle.vector.specs.Vector.{dot};
ghost use Rattle.centre_blocks.specs.Blocks.{four_list, lanes, stepped, column};

use distance::Four;

// One value for each of sixteen centres.
#[derive(Clone, Copy)]
pub struct Sixteen {
    pub a: Four,
    pub b: Four,
    pub c: Four,
    pub d: Four,
}

// Four sums with the products of x and the four components at a place added.
fn step_four(sums: Four, x: f32, blocks: &[f32], at: usize) -> Four
    requires { at + 4 ≤ length blocks.now }
    ensures { four_list result ≡ stepped (four_list sums) x (part at 4 blocks.now) }
{
    // By hand: unrolled, and so are the four fours below.
    Four {
        a: sums.a + x * blocks[at],
        b: sums.b + x * blocks[at + 1],
        c: sums.c + x * blocks[at + 2],
        d: sums.d + x * blocks[at + 3],
    }
}

// Sixteen sums with the products of x and the sixteen components at a place added.
fn step_sixteen(sums: Sixteen, x: f32, blocks: &[f32], at: usize) -> Sixteen
    requires { at + 16 ≤ length blocks.now }
    ensures { lanes result ≡ stepped (lanes sums) x (part at 16 blocks.now) }
{
    Sixteen {
        a: step_four(sums.a, x, blocks, at),
        b: step_four(sums.b, x, blocks, at + 4),
        c: step_four(sums.c, x, blocks, at + 8),
        d: step_four(sums.d, x, blocks, at + 12),
    }
}

// The sums of products of a vector with the sixteen columns of the block at a place.
pub fn sums_of(blocks: &[f32], vector: &[f32], at: usize) -> Sixteen
    requires { at + length vector.now * 16 ≤ length blocks.now }
    ensures { (l : ℕ) → l < 16 → get_or (lanes result) l nan ≡ dot vector.now (column (length vector.now) blocks.now (at + l)) }
{
    let zero = Four {
        a: 0.0,
        b: 0.0,
        c: 0.0,
        d: 0.0,
    };
    let mut sums = Sixteen {
        a: zero,
        b: zero,
        c: zero,
        d: zero,
    };
    for (i, &x) in vector.iter().enumerate() {
        sums = step_sixteen(sums, x, blocks, at + i * 16);
    }
    sums
}
