// The table of six numbers per node, and where the parts of an index start.
#![tactic(auto)]

ghost use Rattle.std.specs.Prelude.{◌≡◌, ◌+◌, ◌*◌, ◌<◌, ◌≤◌, ◌^◌, ◌∷◌, [], length};
ghost use Rattle.std.proofs.lemmas.List.Edits.{sets};
ghost use Rattle.store.specs.Store.{Limits};
ghost use Rattle.node_table.specs.Table.{cell, column, sum_to, start_at, block_start, places_of};

use store::Shape;

// Where the parts of an index start: entry owners, leaf order of vectors, six per node, child links, leaf order of entries; filters.
#[derive(Clone, Copy)]
pub struct Places {
    pub owners: usize,
    pub vectors: usize,
    pub table: usize,
    pub links: usize,
    pub order: usize,
    pub filters: usize,
}

pub fn places_of(shape: Shape) -> Places
    requires { Limits shape }
    ensures { result ≡ places_of shape }
{
    Places {
        owners: shape.owners_at(),
        vectors: shape.order_at(),
        table: shape.nodes_at(),
        links: shape.links_at(),
        order: shape.entry_order_at(),
        filters: shape.filters_at(),
    }
}

// The start of a block of `count` elements that would begin at `at`: 0 where it is empty.
fn start_of(at: u32, count: u32) -> u32
    ensures { result ≡ start_at at count }
{
    if count == 0 { 0 } else { at }
}

// Writes the start of each node's block into the column at `at`; the counts stand in the column after it.
pub fn set_starts(numbers: &mut [u32], at: usize, nodes: usize)
    requires nodes_bound { at + 6 * nodes ≤ length numbers.old + 4 }
    requires nodes_bound_2 { sum_to (cell (at + 1) numbers.old) nodes < 2 ^ 32 }
    ensures { numbers.new ≡ column at nodes (block_start at numbers.old) numbers.old }
{
    let mut sum: u32 = 0;
    for i in 0..nodes {
        let count = numbers[at + 1 + 6 * i];
        numbers[at + 6 * i] = start_of(sum, count);
        sum += count;
    }
}

// Writes the six numbers of a node: the count of its children, and the start and the count of its vectors. The start of the children and the block
// of entries are left to the finishing passes.
pub fn write_six(numbers: &mut [u32], at: usize, children: usize, start: usize, size: usize)
    requires at_in_bounds { at + 6 ≤ length numbers.old }
    requires children_bound { children ≤ 4096 }
    requires start_bound { start ≤ 4096 }
    requires size_bound { size ≤ 4096 }
    ensures { numbers.new ≡ sets numbers.old at (0 ∷ children ∷ start ∷ size ∷ 0 ∷ 0 ∷ []) }
{
    let six = [0, children as u32, start as u32, size as u32, 0, 0];
    let end = at + 6;
    numbers[at..end].copy_from_slice(&six);
}

// Copies `source` to the place `at` of the numbers. By hand: the library's copy of a length that is not constant calls C's memmove, which the archive does
// not ask of its callers.
pub fn copy_to(numbers: &mut [u32], at: usize, source: &[u32])
    requires { at + length source.now ≤ length numbers.old }
    ensures { numbers.new ≡ sets numbers.old at source.now }
{
    for (i, &number) in source.iter().enumerate() {
        numbers[at + i] = number;
    }
}
