// The finishing passes of a build: block starts, child links, label entries by leaf, filters (document 01, 'The store' and 'Entries').
#![tactic(auto)]

ghost use Rattle.label_entries.specs.Promises.{Room, AllMade, Finished};

use child_links::link_nodes;
use entry_leaves::entry_leaves;
use entry_order::sort_entries;
use node_filters::make_filters;
use node_table::places_of;
use store::Shape;

// Finishes an index whose nodes are all made: starts of children and child links, entries by leaf, filters. The work list holds the nodes that wait for
// a parent, then the leaf of each vector and after them the leaf of each entry.
pub fn insert_label_entries(
    shape: Shape,
    vectors: usize,
    entries: usize,
    nodes: usize,
    numbers: &mut [u32],
    hashes: &mut [u64],
    work: &mut [u32],
)
    requires room { Room shape vectors entries nodes numbers.old hashes.old work.old }
    requires all_made { AllMade shape vectors entries nodes numbers.old hashes.old }
    ensures { Finished shape vectors entries nodes numbers.old hashes.old work.old numbers.new hashes.new work.new }
{
    let places = places_of(shape);
    let at = shape.vectors;
    let end = at + entries;
    link_nodes(numbers, places.table, nodes, places.links, work);
    entry_leaves(
        work,
        at,
        numbers,
        places.table + 3,
        nodes,
        places.vectors,
        places.owners,
        entries,
    );
    sort_entries(numbers, places.table, nodes, places.order, &work[at..end]);
    make_filters(hashes, numbers, places, nodes);
}
