// The filters of the nodes.
#![tactic(auto)]

ghost use Rattle.std.specs.Prelude.{◌≡◌, map, ℕ, ◌+◌, ◌*◌, ◌<◌, ◌≤◌, length, get_or};
ghost use Rattle.std.proofs.lemmas.List.Edits.{sets};
ghost use Rattle.lists.specs.Lists.{part};
ghost use Rattle.bloom.specs.Filter.{insert_all, union_all};
ghost use Rattle.node_filters.specs.Filters.{filter_made, filters_made};
ghost use Rattle.node_filters.specs.Promises.{RowFits};

use node_table::Places;
use std::ops::Range;

// Inserts the hash of each of `entries` into the filter at `at`.
fn insert_hashes(hashes: &mut [u64], at: usize, entries: &[u32])
    requires at_bound { at + 4 ≤ length hashes.old }
    requires by_index { (k : ℕ) → k < length entries.now → get_or entries.now k 0 < at }
    ensures { hashes.new ≡ sets hashes.old at (insert_all (part at 4 hashes.old) (map (λ x. get_or hashes.old x 0) entries.now)) }
{
    let end = at + 4;
    for &entry in entries {
        let hash = hashes[entry as usize];
        bloom::insert(&mut hashes[at..end], hash);
    }
}

// Adds to the filter at `at` those of `children`, which stand after it; the filter of node 0 is at `filters`.
fn unite_children(hashes: &mut [u64], filters: usize, at: usize, children: &[u32])
    requires at_bound { at + 4 ≤ length hashes.old }
    requires by_index { (k : ℕ) → k < length children.now → at + 4 ≤ filters + 4 * get_or children.now k 0 }
    requires by_index_2 { (k : ℕ) → k < length children.now → filters + 4 * get_or children.now k 0 + 4 ≤ length hashes.old }
    ensures { hashes.new ≡ sets hashes.old at (union_all (part at 4 hashes.old) (map (λ c. part (filters + 4 * c) 4 hashes.old) children.now)) }
{
    for &child in children {
        let other = bloom::words(hashes, filters + 4 * child as usize);
        let pool = bloom::unite(bloom::words(hashes, at), other);
        bloom::write_words(hashes, at, pool);
    }
}

// The block whose start, counted from `first`, and count stand at two places.
fn block_ends(numbers: &[u32], first: usize, start_at: usize, count_at: usize) -> Range<usize>
    requires start_at_in_bounds { start_at < length numbers.now }
    requires count_at_in_bounds { count_at < length numbers.now }
    requires count_at_in_bounds_2 { first + get_or numbers.now start_at 0 + get_or numbers.now count_at 0 ≤ length numbers.now }
    ensures from_value { result.start ≡ first + get_or numbers.now start_at 0 }
    ensures to_value { result.end ≡ first + get_or numbers.now start_at 0 + get_or numbers.now count_at 0 }
{
    let start = first + numbers[start_at] as usize;
    start..start + numbers[count_at] as usize
}

// Makes the filter of a node from those of its children and the hashes of its entries.
fn make_filter(hashes: &mut [u64], numbers: &[u32], places: Places, nodes: usize, node: usize)
    requires nodes_bound { places.filters + 4 * nodes ≤ length hashes.old }
    requires nodes_in_bounds { places.table + 6 * nodes ≤ length numbers.now }
    requires node_lt_nodes { node < nodes }
    requires row_fits { RowFits places numbers.now nodes node }
    ensures { hashes.new ≡ sets hashes.old (places.filters + 4 * node) (filter_made places numbers.now hashes.old node) }
{
    let table = places.table;
    let entries = block_ends(
        numbers,
        places.order,
        table + 4 + 6 * node,
        table + 5 + 6 * node,
    );
    let children = block_ends(
        numbers,
        places.links,
        table + 6 * node,
        table + 1 + 6 * node,
    );
    let filters = places.filters;
    let at = filters + 4 * node;
    let end = at + 4;
    bloom::clear(&mut hashes[at..end]);
    insert_hashes(hashes, at, &numbers[entries]);
    unite_children(hashes, filters, at, &numbers[children]);
}

// Makes all filters, from the last node to the first: a node stands before its children.
pub fn make_filters(hashes: &mut [u64], numbers: &[u32], places: Places, nodes: usize)
    requires nodes_bound { places.filters + 4 * nodes ≤ length hashes.old }
    requires nodes_in_bounds { places.table + 6 * nodes ≤ length numbers.now }
    requires by_index { (i : ℕ) → i < nodes → RowFits places numbers.now nodes i }
    ensures { hashes.new ≡ filters_made places numbers.now nodes hashes.old }
{
    for i in (0..nodes).rev() {
        make_filter(hashes, numbers, places, nodes, i);
    }
}
