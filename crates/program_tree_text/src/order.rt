// The nodes branch by branch, so that children stand below their parent whatever their numbers are: "Children stand in the order of their numbers",
// and no more is asked of a file than that a parent's number is smaller.
ghost use Rattle.std.specs.Prelude.{◌≤◌};

use program_tree_marks::nodes::{node, node_count, parent_of};
use read_record::limits::TREE_NODES;

// The largest number that a node may have
const LAST_NODE: usize = 4095;

// A number that a node may have.
pub fn node_number(n: usize) -> usize
    ensures { result ≤ 4095 }
{
    n.min(LAST_NODE)
}

fn parent_number(tree: &[u8], n: usize) -> usize
    ensures { result ≤ 4095 }
{
    node_number(parent_of(node(tree, n)))
}

fn sum(size: usize, other: usize) -> usize {
    size.min(TREE_NODES) + other.min(TREE_NODES)
}

// How many nodes each branch has, its own first node among them: from the back, each is counted to its parent's.
fn branch_sizes(tree: &[u8]) -> [usize; TREE_NODES] {
    let mut sizes = [1; TREE_NODES];
    for n in (1..node_count(tree)).rev() {
        let parent = parent_number(tree, n);
        sizes[parent] = sum(sizes[parent], sizes[n]);
    }
    sizes
}

// The numbers of the nodes in that order. `next` has for each node the place of its next child.
pub fn by_branch(tree: &[u8]) -> [usize; TREE_NODES] {
    let sizes = branch_sizes(tree);
    let mut next = [1; TREE_NODES];
    let mut order = [0; TREE_NODES];
    for n in 1..node_count(tree) {
        let parent = parent_number(tree, n);
        let place = node_number(next[parent]);
        order[place] = n;
        next[parent] = sum(place, sizes[n]);
        next[n] = place + 1;
    }
    order
}
