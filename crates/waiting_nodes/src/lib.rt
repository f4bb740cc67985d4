// The queue of waiting nodes: a node waits by the distance of its centroid from the query, then by its number (document 01, 'Search').
#![tactic(auto)]

ghost use Rattle.std.specs.Prelude.{◌≡◌, [], ◌∷◌, ◌+◌, ◌*◌, ◌^◌, ◌≤◌, length};
ghost use Rattle.lists.specs.Lists.{part};
ghost use Rattle.distance.specs.Distance.{distance};
ghost use Rattle.total_order.specs.TotalOrder.{key_of};
ghost use Rattle.store.specs.Store.{vector_at};
ghost use Rattle.waiting_nodes.specs.Promises.{PushNode, PushLent, PushedNodes, waiting_records};

use distance::places::{distance_at, distances_at};
use record_queue::{Record, push};
use store::Shape;
use total_order::key;

// The key of the distance from the query to vector i of the floats, the part that starts at its number times D.
pub fn distance_key(floats: &[f32], query: &[f32], dimension: usize, i: usize) -> u32
    requires { i * dimension + dimension ≤ length floats.now }
    ensures { result ≡ key_of (distance query.now (vector_at dimension floats.now i)) }
{
    key(distance_at(floats, query, dimension, i * dimension))
}

// Puts a node with its distance's key into the queue of waiting nodes.
pub fn push_node(shape: Shape, work: &mut [u32], waiting: usize, child: usize, key: u32)
    requires { PushNode shape work.old waiting child }
    ensures { PushedNodes shape work.old waiting ((key * 2 ^ 64 + child) ∷ []) work.new }
{
    push(
        work,
        waiting,
        2,
        Record {
            key,
            rest: child as u64,
        },
    );
}

// Puts four nodes into the queue of waiting nodes; their distances are made side by side.
fn push_four(
    shape: Shape,
    floats: &[f32],
    numbers: &[u32],
    work: &mut [u32],
    query: &[f32],
    waiting: usize,
    at: usize,
)
    requires { PushLent shape floats.now numbers.now work.old waiting at 4 }
    ensures { PushedNodes shape work.old waiting (waiting_records shape floats.now query.now (part at 4 numbers.now)) work.new }
{
    let a = numbers[at] as usize;
    let b = numbers[at + 1] as usize;
    let c = numbers[at + 2] as usize;
    let d = numbers[at + 3] as usize;
    let v = shape.vectors;
    let size = shape.dimension;
    let four = distances_at(
        floats,
        query,
        size,
        (v + a) * size,
        (v + b) * size,
        (v + c) * size,
        (v + d) * size,
    );
    push_node(shape, work, waiting, a, key(four.a));
    push_node(shape, work, waiting + 1, b, key(four.b));
    push_node(shape, work, waiting + 2, c, key(four.c));
    push_node(shape, work, waiting + 3, d, key(four.d));
}

// Puts a node into the queue of waiting nodes.
fn push_one(
    shape: Shape,
    floats: &[f32],
    numbers: &[u32],
    work: &mut [u32],
    query: &[f32],
    waiting: usize,
    at: usize,
)
    requires { PushLent shape floats.now numbers.now work.old waiting at 1 }
    ensures { PushedNodes shape work.old waiting (waiting_records shape floats.now query.now (part at 1 numbers.now)) work.new }
{
    let child = numbers[at] as usize;
    let key = distance_key(floats, query, shape.dimension, shape.vectors + child);
    push_node(shape, work, waiting, child, key);
}

// Puts the children of a node into the queue of waiting nodes, four at a time, and the last three at most one by one.
// By hand: a turn takes four or one.
pub fn push_children(
    shape: Shape,
    floats: &[f32],
    numbers: &[u32],
    work: &mut [u32],
    query: &[f32],
    waiting: usize,
    start: usize,
    count: usize,
)
    requires { PushLent shape floats.now numbers.now work.old waiting start count }
    ensures { PushedNodes shape work.old waiting (waiting_records shape floats.now query.now (part start count numbers.now)) work.new }
{
    let mut j = 0;
    while j < count {
        if 4 <= count - j {
            push_four(shape, floats, numbers, work, query, waiting + j, start + j);
            j += 4;
        } else {
            push_one(shape, floats, numbers, work, query, waiting + j, start + j);
            j += 1;
        }
    }
}
