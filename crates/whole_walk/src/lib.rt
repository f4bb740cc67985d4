// The walk over a lent store that cannot be cut, whatever numbers stand in the store: where `ef_search` is at least the node count, one pass over the
// nodes by rising number opens the nodes that the best-first walk opens, finds its hits and is damaged exactly where it is, with no queue and no
// distances (document 01, 'Search').
#![tactic(auto)]

ghost use Rattle.lists.specs.Lists.{part};
ghost use Rattle.walk.specs.Wanted.{about};
ghost use Rattle.whole_walk.specs.Promises.{ChildrenLent, MarksChildren, OpenLent, OpensNode, PassLent, WalksAny};

use best_first_walk::{found_at, fresh_child, mark_root};
use store::{Counts, Lists, Shape};
use walk::look::{Block, Look, look_at};
use walk::{Damaged, Searched, Wanted};
use wanted_hits::add_hits;

// Marks the children of an inner node. A child that is not fresh is damage.
fn mark_children(
    shape: Shape,
    counts: Counts,
    numbers: &[u32],
    work: &mut [u32],
    parent: usize,
    children: Block,
) -> Result<(), Damaged>
    requires { ChildrenLent shape counts numbers.now work.old children.start children.count }
    ensures { MarksChildren shape counts parent (part children.start children.count numbers.now) work.old result work.new }
{
    let nodes = counts.nodes;
    let marks_at = shape.marks_at();
    let start = children.start;
    let end = start + children.count;
    for &number in &numbers[start..end] {
        let child = number as usize;
        if !fresh_child(work, marks_at, nodes, parent, child) {
            return Err(Damaged);
        }
        let at = marks_at + child;
        work[at] = 1;
    }
    Ok(())
}

// Opens node i: the hits after those of a leaf, or the children of an inner node are marked, or damage.
fn open_node(
    shape: Shape,
    counts: Counts,
    lists: Lists,
    work: &mut [u32],
    hits: usize,
    wanted: Wanted,
    i: usize,
) -> Result<usize, Damaged>
    requires { OpenLent shape counts lists.numbers.now lists.hashes.now lists.text.now work.old hits (about wanted) i }
    ensures { OpensNode shape counts lists.entry.numbers.now lists.entry.hashes.now lists.entry.text.now hits (about wanted.entry) i work.old result work.new }
{
    let hits_at = shape.hits_at();
    let hits_end = shape.work_size();
    let from = found_at(shape) - hits_at;
    let shown = look_at(shape, counts, lists.numbers, lists.hashes, wanted, i)?;
    match shown {
        Look::Leaf(list) => add_hits(
            shape,
            counts,
            lists,
            &mut work[hits_at..hits_end],
            from,
            hits,
            wanted,
            list,
        ),
        Look::Inner(children) => {
            mark_children(shape, counts, lists.numbers, work, i, children)?;
            Ok(hits)
        }
    }
}

// The walk: every marked node is opened, by rising number. A child is above its parent, so that it is marked before the pass comes to it.
pub fn whole_walk(
    shape: Shape,
    counts: Counts,
    lists: Lists,
    work: &mut [u32],
    wanted: Wanted,
) -> Result<Searched, Damaged>
    requires { PassLent shape counts lists.numbers.now lists.hashes.now lists.text.now work.old }
    ensures { WalksAny shape counts lists.entry.numbers.now lists.entry.hashes.now lists.entry.text.now (about wanted.entry) work.old result work.new }
{
    let nodes = counts.nodes;
    let marks_at = shape.marks_at();
    mark_root(shape, counts, work);
    let mut opened = 0;
    let mut hits = 0;
    for i in 0..nodes {
        if work[marks_at + i] == 0 {
            continue;
        }
        opened += 1;
        hits = open_node(shape, counts, lists, work, hits, wanted, i)?;
    }
    Ok(Searched {
        hits,
        opened,
        whole: true,
    })
}
