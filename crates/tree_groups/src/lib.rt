// The rows of a tree, filled in place: parents, labels, child links, the family of each node (the smallest node equal to it, found among nodes of the
// same weight by `node_eq`, from the back), and the next node of its family.
#![tactic(auto)]

ghost use Rattle.std.specs.Prelude.{◌≡◌, ℕ, ◌+◌, ◌<◌, ◌≤◌, get_or};
ghost use Rattle.meaning.specs.Trees.{Equal};
ghost use Rattle.tree_table.specs.FileTable.{file_table, class_by, TreeBytes};
ghost use Rattle.tree_table.specs.LinkedTree.{LinkedTree};
ghost use Rattle.tree_table.specs.Links.{Nexts};
ghost use Rattle.tree_table.specs.Tells.{Tells};
ghost use Rattle.tree_rows.specs.Chain.{by_family};
ghost use Rattle.tree_rows.specs.Prepared.{Prepared};
ghost use Rattle.tree_weights.specs.Weights.{Weighed};
ghost use Rattle.tree_equal.specs.Known.{KnownFrom};
ghost use Rattle.tree_equal.specs.Marks.{Clean};
ghost use Rattle.tree_groups.specs.Leaders.{Sorted, FamilyIs};
ghost use Rattle.tree_groups.specs.Lowest.{LowFrom, NamedTo};
ghost use Rattle.tree_groups.specs.InRows.{Gathered};

use read_record::limits::TREE_NODES;
use tree_equal::{Known, node_eq};
use tree_rows::fields::put_fields;
use tree_rows::hang::hang_under;
use tree_rows::rows::Rows;
use tree_table::fields::size;
use tree_weights::weigh;

// The weights sorted into as many buckets as there are nodes: equal nodes stand in one bucket. The low part of a weight is a count of nodes, equal
// for all leaves; the part above it is spread.
fn sort(weight: &[u32; TREE_NODES], count: usize) -> [u16; TREE_NODES]
    requires { (0 < count) × (count ≤ 4096) }
    ensures { Sorted weight.now result count count }
{
    let mut bucket = [0u16; TREE_NODES];
    for x in 0..count {
        bucket[x] = (weight[x] as usize / TREE_NODES % count) as u16;
    }
    bucket
}

// To each node the next one of its bucket; 0 where there is none.
fn chain(bucket: &[u16; TREE_NODES], count: usize) -> [u16; TREE_NODES]
    requires { (0 < count) × (count ≤ 4096) × ((x : ℕ) → x < count → get_or bucket.now x 0 < count) }
    ensures { Nexts (by_family count bucket.now) result }
{
    let mut first = [0u16; TREE_NODES];
    let mut next = [0u16; TREE_NODES];
    hang_under(bucket, count, &mut first, &mut next);
    next
}

// Nodes x and y are equal; the weights save most calls of `node_eq`.
fn alike(
    known: &Known,
    marks: &mut [u16; TREE_NODES],
    weight: &[u32; TREE_NODES],
    x: usize,
    y: usize,
) -> bool
    requires nodes { KnownFrom known.now.classes.now known.now.tree.now known.now.rows.now known.now.from }
    requires weighed { Weighed (class_by known.now.classes.now) (file_table known.now.tree.now) weight.now }
    requires x_bound { (x < (file_table known.now.tree.now).size) × (y < (file_table known.now.tree.now).size) × (x < y) × (known.now.from ≡ x + 1) × Clean marks.old }
    ensures { Tells (Equal (class_by known.now.classes.now) (file_table known.now.tree.now) x y) result × Clean marks.new }
{
    weight[x] == weight[y] && node_eq(known, marks, x, y)
}

// The family of the next node in the bucket that is equal to x; x itself where there is none.
fn leader(
    known: &Known,
    marks: &mut [u16; TREE_NODES],
    weight: &[u32; TREE_NODES],
    bucket: &[u16; TREE_NODES],
    chained: &[u16; TREE_NODES],
    x: usize,
) -> usize
    requires nodes { KnownFrom known.now.classes.now known.now.tree.now known.now.rows.now known.now.from }
    requires weighed { Weighed (class_by known.now.classes.now) (file_table known.now.tree.now) weight.now }
    requires sorted { Sorted weight.now bucket.now (file_table known.now.tree.now).size (file_table known.now.tree.now).size
        × Nexts (by_family (file_table known.now.tree.now).size bucket.now) chained.now }
    requires x_bound { (0 < x) × (x < (file_table known.now.tree.now).size) × (known.now.from ≡ x + 1) × Clean marks.old }
    ensures { FamilyIs (class_by known.now.classes.now) (file_table known.now.tree.now) known.now.rows.now.family x result × Clean marks.new }
{
    let mut y = usize::from(chained[x]);
    // Stays a `while`: because a list by links counts nothing.
    while y != 0 {
        if alike(known, marks, weight, x, y) {
            return known.rows.family_of(y);
        }
        y = usize::from(chained[y]);
    }
    x
}

// A family for each node, from the back. Not drawn into its caller, so that its tables take stack only while it runs.
#[inline(never)]
fn gather(tree: &[u8], classes: &[u8; 256], weight: &[u32; TREE_NODES], rows: &mut Rows)
    requires { LinkedTree classes.now tree.now rows.old.first rows.old.next × Weighed (class_by classes.now) (file_table tree.now) weight.now }
    ensures { Gathered classes.now tree.now rows.old rows.new }
{
    let count = size(tree);
    let bucket = sort(weight, count);
    let chained = chain(&bucket, count);
    let mut marks = [0u16; TREE_NODES];
    rows.family[0] = 0;
    for x in (1..count).rev() {
        let known = Known {
            tree,
            classes,
            rows,
            from: x + 1,
        };
        let own = leader(&known, &mut marks, weight, &bucket, &chained, x);
        rows.family[x] = own as u16;
    }
}

// Of each family its smallest node.
fn lowest(family: &[u16; TREE_NODES], count: usize) -> [u16; TREE_NODES]
    requires { (0 < count) × (count ≤ 4096) × ((x : ℕ) → x < count → get_or family.now x 0 < count) }
    ensures { LowFrom family.now result count 1 }
{
    let mut low = [0u16; TREE_NODES];
    for x in (1..count).rev() {
        low[usize::from(family[x])] = x as u16;
    }
    low
}

// Each family by its smallest node, in place.
fn name(low: &[u16; TREE_NODES], count: usize, family: &mut [u16; TREE_NODES])
    requires count_nonzero { (0 < count) × (count ≤ 4096) × ((x : ℕ) → x < count → get_or family.old x 0 < count) }
    requires root { get_or family.old 0 0 ≡ 0 }
    ensures { NamedTo family.old low.now family.new count }
{
    for x in 1..count {
        let own = usize::from(family[x]);
        family[x] = low[own];
    }
}

// The rows of a tree, once per tree.
pub fn prepare(tree: &[u8], classes: &[u8; 256], rows: &mut Rows)
    requires { TreeBytes classes.now tree.now }
    ensures { Prepared classes.now tree.now rows.new }
{
    let count = size(tree);
    put_fields(tree, classes, &mut rows.parent, &mut rows.label);
    rows.first.fill(0);
    hang_under(&rows.parent, count, &mut rows.first, &mut rows.next);
    let weight = weigh(tree, classes);
    gather(tree, classes, &weight, rows);
    let low = lowest(&rows.family, count);
    name(&low, count, &mut rows.family);
    let mut last = [0u16; TREE_NODES];
    hang_under(&rows.family, count, &mut last, &mut rows.same);
}
