// The leaf of each vector, and of each label entry.
#![tactic(auto)]

ghost use Rattle.std.specs.Prelude.{◌≡◌, ℕ, ◌+◌, ◌*◌, ◌<◌, ◌≤◌, ◌^◌, length, get_or};
ghost use Rattle.node_table.specs.Table.{cell, written, sum_to};
ghost use Rattle.entry_leaves.specs.Leaves.{marked, leaves_marked};

// Writes `node` at each of the places that `ids` names.
fn mark_leaf(work: &mut [u32], ids: &[u32], node: u32)
    requires { (k : ℕ) → k < length ids.now → get_or ids.now k 0 < length work.old }
    ensures { work.new ≡ written (λ k. get_or ids.now k 0) (λ k. node) (length ids.now) work.old }
{
    for &id in ids {
        work[id as usize] = node;
    }
}

// Writes at each vector's place its leaf: the leaf order of vectors starts at `order`, and the nodes' counts of vectors stand in the column at `at`.
fn mark_leaves(work: &mut [u32], numbers: &[u32], at: usize, nodes: usize, order: usize)
    requires nodes_in_bounds { at + 6 * nodes ≤ length numbers.now + 5 }
    requires nodes_bound { nodes < 2 ^ 32 }
    requires nodes_in_bounds_2 { order + sum_to (cell at numbers.now) nodes ≤ length numbers.now }
    requires by_index { (k : ℕ) → k < sum_to (cell at numbers.now) nodes → get_or numbers.now (order + k) 0 < length work.old }
    ensures { work.new ≡ marked (λ k. get_or numbers.now (order + k) 0) (cell at numbers.now) nodes work.old }
{
    let mut from = order;
    for i in 0..nodes {
        let next = from + numbers[at + 6 * i] as usize;
        mark_leaf(work, &numbers[from..next], i as u32);
        from = next;
    }
}

// Writes the leaf of each entry from `at` on: the leaf of its owner, which stands before `at`. The owners start at `owners`.
fn find_leaves(work: &mut [u32], at: usize, numbers: &[u32], owners: usize, entries: usize)
    requires entries_in_bounds { at + entries ≤ length work.old }
    requires entries_in_bounds_2 { owners + entries ≤ length numbers.now }
    requires by_index { (k : ℕ) → k < entries → get_or numbers.now (owners + k) 0 < at }
    ensures { work.new ≡ written (λ k. at + k) (λ k. get_or work.old (get_or numbers.now (owners + k) 0) 0) entries work.old }
{
    for k in 0..entries {
        let owner = numbers[owners + k] as usize;
        work[at + k] = work[owner];
    }
}

// Writes the leaf of each entry from `at` on, by way of the leaf of each vector: the leaf order of vectors starts at `order`, the nodes' counts of
// vectors stand in the column at `counts`, and the owners start at `owners`.
pub fn entry_leaves(
    work: &mut [u32],
    at: usize,
    numbers: &[u32],
    counts: usize,
    nodes: usize,
    order: usize,
    owners: usize,
    entries: usize,
)
    requires entries_in_bounds { at + entries ≤ length work.old }
    requires nodes_in_bounds { counts + 6 * nodes ≤ length numbers.now + 5 }
    requires nodes_bound { nodes < 2 ^ 32 }
    requires nodes_in_bounds_2 { order + sum_to (cell counts numbers.now) nodes ≤ length numbers.now }
    requires by_index { (k : ℕ) → k < sum_to (cell counts numbers.now) nodes → get_or numbers.now (order + k) 0 < at }
    requires entries_in_bounds_2 { owners + entries ≤ length numbers.now }
    requires by_index_2 { (k : ℕ) → k < entries → get_or numbers.now (owners + k) 0 < at }
    ensures { work.new ≡ leaves_marked at numbers.now counts nodes order owners entries work.old }
{
    mark_leaves(work, numbers, counts, nodes, order);
    find_leaves(work, at, numbers, owners, entries);
}
