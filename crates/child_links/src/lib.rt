// The child links of the nodes.
#![tactic(auto)]

ghost use Rattle.std.specs.Prelude.{◌≡◌, ◌+◌, ◌*◌, ◌<◌, ◌≤◌, ◌^◌, length, drop};
ghost use Rattle.std.proofs.lemmas.List.Edits.{sets};
ghost use Rattle.tree.specs.Links.{link_up};
ghost use Rattle.node_table.specs.Table.{cells, column, block_start};
ghost use Rattle.child_links.specs.Promises.{ChildCounts};

use node_table::{copy_to, set_starts};

// Writes the child links from `links` on, from the last node to the first; the child counts stand in the column at `at`. The nodes that have no
// parent yet wait on a stack in the work list, the lowest number on top: a node takes its children from there, and goes there itself.
fn link_children(numbers: &mut [u32], at: usize, nodes: usize, links: usize, work: &mut [u32])
    requires nodes_bound { at + 6 * nodes ≤ links + 5 }
    requires nodes_in_bounds { links + nodes ≤ length numbers.old }
    requires nodes_in_bounds_2 { nodes ≤ length work.old }
    requires nodes_bound_2 { nodes < 2 ^ 32 }
    requires child_counts { ChildCounts (cells at nodes numbers.old) }
    ensures numbers_after { numbers.new ≡ sets numbers.old links (link_up 0 (cells at nodes numbers.old)).links }
    ensures work_unchanged { drop nodes work.new ≡ drop nodes work.old }
{
    let mut top = nodes;
    let mut end = nodes - 1;
    for i in (0..nodes).rev() {
        let count = numbers[at + 6 * i] as usize;
        end -= count;
        let rest = top + count;
        copy_to(numbers, links + end, &work[top..rest]);
        top = rest - 1;
        work[top] = i as u32;
    }
}

// Writes the starts of the nodes' children into the first column of the table, and the child links; the child counts stand in the second column.
pub fn link_nodes(numbers: &mut [u32], table: usize, nodes: usize, links: usize, work: &mut [u32])
    requires nodes_bound { table + 6 * nodes ≤ links }
    requires nodes_in_bounds { links + nodes ≤ length numbers.old }
    requires nodes_in_bounds_2 { nodes ≤ length work.old }
    requires nodes_bound_2 { nodes < 2 ^ 32 }
    requires child_counts { ChildCounts (cells (table + 1) nodes numbers.old) }
    ensures numbers_after { numbers.new ≡ sets (column table nodes (block_start table numbers.old) numbers.old) links (link_up 0 (cells (table + 1) nodes numbers.old)).links }
    ensures work_unchanged { drop nodes work.new ≡ drop nodes work.old }
{
    set_starts(numbers, table, nodes);
    link_children(numbers, table + 1, nodes, links, work);
}
