// The best-first walk over a lent store, whatever numbers stand in it (document 01, 'Search').
#![tactic(auto)]

ghost use Rattle.std.specs.Prelude.{◌≡◌, ◌&&◌, ◌+◌, ◌≤◌, ltb, eqb, length, get_or};
ghost use Rattle.store.specs.Store.{Limits};
ghost use Rattle.store.specs.Lent.{stored};
ghost use Rattle.walk.specs.Promises.{StoreLent};
ghost use Rattle.walk.specs.Wanted.{about};
ghost use Rattle.best_first_walk.specs.Walks.{found_at, root_marked, RootLent, BeginLent, BeginsAny, Walks};

use record_queue::pop;
use store::{Counts, Lists, Shape};
use waiting_nodes::{distance_key, push_children, push_node};
use walk::look::{Look, look_at};
use walk::{Damaged, Searched, Wanted};
use wanted_hits::add_hits;

// Where the numbers of the vectors found stand in the work list: in the last third of the hits' part and the place before it, so that their hits can be
// put into a queue at the front of the part while they are read.
pub fn found_at(shape: Shape) -> usize
    requires { Limits shape }
    ensures { result ≡ found_at shape }
{
    let end = shape.work_size();
    end - (end - shape.hits_at()) / 3 - 1
}

// Whether a child is above its parent, below the node count and not pushed before.
pub fn fresh_child(work: &[u32], marks_at: usize, nodes: usize, parent: usize, child: usize) -> bool
    requires { marks_at + nodes ≤ length work.now }
    ensures { result ≡ ((ltb parent child && ltb child nodes) && eqb (get_or work.now (marks_at + child) 0) 0) }
{
    parent < child && child < nodes && work[marks_at + child] == 0
}

// Marks the root alone.
pub fn mark_root(shape: Shape, counts: Counts, work: &mut [u32])
    requires { RootLent shape counts work.old }
    ensures { work.new ≡ root_marked shape counts work.old }
{
    let start = shape.marks_at();
    let end = start + counts.nodes;
    work[start..end].fill(0);
    work[start] = 1;
}

// Begins a walk: the root alone is marked, and it waits.
fn begin(shape: Shape, counts: Counts, floats: &[f32], work: &mut [u32], query: &[f32])
    requires { BeginLent shape counts floats.now work.old }
    ensures { BeginsAny shape counts floats.now query.now work.old work.new }
{
    mark_root(shape, counts, work);
    let key = distance_key(floats, query, shape.dimension, shape.vectors);
    push_node(shape, work, 0, 0, key);
}

// The walk: the least waiting node is taken and opened, until none waits, or `ef_search` nodes are opened, or the store is damaged.
pub fn best_first_walk(
    shape: Shape,
    counts: Counts,
    ef_search: usize,
    lists: Lists,
    work: &mut [u32],
    query: &[f32],
    wanted: Wanted,
) -> Result<Searched, Damaged>
    requires { StoreLent shape counts (stored lists) work.old }
    ensures { Walks shape counts ef_search (stored lists.entry) query.now (about wanted.entry) work.old result work.new }
{
    let numbers = lists.numbers;
    let nodes = counts.nodes;
    let marks_at = shape.marks_at();
    let hits_at = shape.hits_at();
    let hits_end = shape.work_size();
    let from = found_at(shape) - hits_at;
    begin(shape, counts, lists.floats, work, query);
    let mut waiting = 1;
    let mut opened = 0;
    let mut hits = 0;
    // By hand: nodes are taken out of a queue that grows meanwhile.
    'walk: loop {
        if waiting == 0 {
            break 'walk Ok(Searched {
                hits,
                opened,
                whole: true,
            });
        }
        if opened == ef_search {
            break 'walk Ok(Searched {
                hits,
                opened,
                whole: false,
            });
        }
        let least = pop(work, waiting, 2);
        waiting -= 1;
        opened += 1;
        let node = least.rest as usize;
        let shown = look_at(shape, counts, numbers, lists.hashes, wanted, node)?;
        match shown {
            Look::Leaf(list) => {
                hits = add_hits(
                    shape,
                    counts,
                    lists,
                    &mut work[hits_at..hits_end],
                    from,
                    hits,
                    wanted,
                    list,
                )?;
            }
            Look::Inner(children) => {
                let start = children.start;
                let count = children.count;
                let end = start + count;
                for &number in &numbers[start..end] {
                    let child = number as usize;
                    if !fresh_child(work, marks_at, nodes, node, child) {
                        break 'walk Err(Damaged);
                    }
                    let at = marks_at + child;
                    work[at] = 1;
                }
                push_children(
                    shape,
                    lists.floats,
                    numbers,
                    work,
                    query,
                    waiting,
                    start,
                    count,
                );
                waiting += count;
            }
        }
    }
}
