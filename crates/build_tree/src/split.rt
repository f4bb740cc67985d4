// An inner node: the ids of its group are split into clusters, and the non-empty ones wait in its place.
ghost use Rattle.std.specs.Prelude.{◌*◌, ◌≤◌, length};
ghost use Rattle.store.specs.Store.{Limits, centres_at};
ghost use Rattle.cluster.specs.Promises.{BehindVectors};
ghost use Rattle.build_tree.specs.Promises.{TreeLent, Splits, Clustering, Divided};

use node_table::{copy_to, write_six};
use waiting_groups::sort_by_mark;

// Splits ids into clusters in the work list. The result is how many are not empty.
fn split_ids(
    shape: store::Shape,
    n: usize,
    levels: u32,
    ids: &[u32],
    floats: &mut [f32],
    work: &mut [u32],
) -> usize
    requires limits { Limits shape }
    requires behind_vectors { BehindVectors floats.old ids.now shape.dimension n (centres_at shape) (shape.dimension * shape.branching) }
    requires n_bound { n ≤ 4096 }
    requires in_bounds { 1 ≤ length ids.now }
    requires ids_len_bound { length ids.now ≤ 4096 }
    requires ids_in_bounds { 2 * length ids.now ≤ length work.old }
    requires levels_bound { levels ≤ 16 }
    ensures { Clustering shape n levels ids.now floats.old floats.new work.old work.new result }
{
    let k = shape.branching.min(ids.len());
    kmeans::simple_kmeans(floats, ids, work, shape.dimension, n, shape.centres_at(), k);
    sort_by_mark(ids, work, k, levels)
}

// Splits the group whose ids stand in the numbers from `start` on, and writes the node's six numbers at `at`.
pub fn split_node(
    shape: store::Shape,
    n: usize,
    levels: u32,
    start: usize,
    size: usize,
    at: usize,
    floats: &mut [f32],
    numbers: &mut [u32],
    work: &mut [u32],
)
    requires tree_lent { TreeLent shape n floats.old numbers.old work.old }
    requires splits { Splits n levels start size at numbers.old }
    ensures { Divided shape n levels start size at floats.old floats.new numbers.old numbers.new work.old work.new }
{
    let end = start + size;
    let twice = 2 * size;
    let children = split_ids(shape, n, levels, &numbers[start..end], floats, work);
    copy_to(numbers, start, &work[size..twice]);
    write_six(numbers, at, children, 0, 0);
}
