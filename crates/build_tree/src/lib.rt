// The tree of an index, made node by node (document 01, 'Tree'). While it is being made, what waits stands in the store's own parts: the leaf order
// holds first the leaves made so far and then the groups that wait to become nodes, left to right, each with a header in its first place.
#![tactic(auto)]

ghost use Rattle.std.specs.Prelude.{◌+◌};
ghost use Rattle.store.specs.Store.{order_at};
ghost use Rattle.waiting_groups.specs.Waiting.{group_at};
ghost use Rattle.build_tree.specs.Promises.{TreeLent, Waits, MadeNode, Built};

use node_table::write_six;
use waiting_groups::{begin, is_leaf, take_header};

pub mod split;

// Makes the node with the number `made` of the first group that waits. The leaf order is filled up to `done`; the result is up to where it is filled
// from now on.
pub fn make_node(
    shape: store::Shape,
    leaf_size: usize,
    n: usize,
    made: usize,
    done: usize,
    floats: &mut [f32],
    numbers: &mut [u32],
    work: &mut [u32],
) -> usize
    requires tree_lent { TreeLent shape n floats.old numbers.old work.old }
    requires waits { Waits shape n made done (group_at numbers.old (order_at shape + done)) }
    ensures { MadeNode shape leaf_size n made done (group_at numbers.old (order_at shape + done)) floats.old floats.new numbers.old numbers.new work.old work.new result }
{
    let start = shape.order_at() + done;
    let six_at = shape.nodes_at() + 6 * made;
    let centroid_at = shape.centroids_at() + made * shape.dimension;
    let head = take_header(numbers, start);
    let end = start + head.size;
    mean::mean_into(
        floats,
        &numbers[start..end],
        shape.dimension,
        n,
        centroid_at,
    );
    if is_leaf(leaf_size, head) {
        write_six(numbers, six_at, 0, done, head.size);
        return done + head.size;
    }
    split::split_node(
        shape,
        n,
        head.levels - 1,
        start,
        head.size,
        six_at,
        floats,
        numbers,
        work,
    );
    done
}

// Makes the tree over n vectors: centroids, leaf order and the six numbers of each node, as they stand before the finishing passes. The answer is how
// many nodes were made, or none where the tree has more than the store has room for.
pub fn build_tree(
    shape: store::Shape,
    leaf_size: usize,
    n: usize,
    floats: &mut [f32],
    numbers: &mut [u32],
    work: &mut [u32],
) -> Option<usize>
    requires { TreeLent shape n floats.old numbers.old work.old }
    ensures { Built shape leaf_size n floats.old floats.new numbers.old numbers.new work.old work.new result }
{
    begin(numbers, shape.order_at(), n);
    let mut made = 0;
    let mut done = 0;
    // `done` does not count turns: a node may leave it where it is.
    while done < n {
        if made == shape.nodes {
            return None;
        }
        done = make_node(shape, leaf_size, n, made, done, floats, numbers, work);
        made += 1;
    }
    Some(made)
}
