// A weight for each node, once per tree and backwards (children stand after their parents): label, value, the sum of the children's weights and the
// order of those that are no attributes, mixed into 32 bits, such that value-equal nodes have equal weights: attributes count in whatever order.
// The low part of a weight counts the nodes from there down, exactly, since a sum keeps it and no node but the root has 4,096. So nodes of one
// weight never lie below each other, and all calls of `node_eq` on them together visit at most the square of the nodes, whatever else collides.
#![tactic(auto)]

ghost use Rattle.std.specs.Prelude.{◌≡◌, ◌<◌};
ghost use Rattle.tree_table.specs.FileTable.{file_table, class_by, TreeBytes};
ghost use Rattle.tree_weights.specs.Sums.{unless_attribute};
ghost use Rattle.tree_weights.specs.Weights.{Weighed, mix, weight_of};

use read_record::classes::{is_attribute, is_element};
use read_record::limits::TREE_NODES;
use tree_table::fields::{label, parent, size, value};

// A label stands above two bytes of the value; a value has up to four, a weight has 32 bits.
const VALUES: usize = 65536;

const RANGE: usize = 4294967296;

const SPREAD: usize = 40503;

const TURN: usize = 31;

fn mixed(tag: usize, worth: usize, sum: u32) -> u32
    requires { (tag < 256) × (worth < 4294967296) }
    ensures { result ≡ mix tag worth sum }
{
    let joined = (tag * VALUES + worth + sum as usize) % RANGE;
    let spread = joined * (joined % VALUES + SPREAD) % RANGE;
    (spread / TREE_NODES * TREE_NODES + (sum as usize + 1) % TREE_NODES) as u32
}

fn node_weight(tree: &[u8], classes: &[u8; 256], x: usize, sum: u32, order: u16) -> u32
    requires { TreeBytes classes.now tree.now × (x < (file_table tree.now).size) }
    ensures { result ≡ weight_of (class_by classes.now) (file_table tree.now) sum order x }
{
    let tag = label(tree, x);
    if is_element(classes, tag) {
        mixed(tag, usize::from(order), sum)
    } else {
        mixed(tag, value(tree, x), 0)
    }
}

// The order so far, with child x of this weight in front; an attribute has no place in it.
fn with_child(tree: &[u8], classes: &[u8; 256], x: usize, own: u32, order: u16) -> u16
    requires { TreeBytes classes.now tree.now × (x < (file_table tree.now).size) }
    ensures { result ≡ unless_attribute (class_by classes.now) (file_table tree.now) x own order }
{
    if is_attribute(classes, label(tree, x)) {
        order
    } else {
        ((usize::from(order) * TURN + own as usize / TREE_NODES) % VALUES) as u16
    }
}

// Tree and class table stay two parameters, as of its one caller `tree_groups::prepare`: a struct of these two references would be no plainer, since each
// line takes one of the two.
// Not drawn into its caller, so that its tables take stack only while it runs.
#[inline(never)]
pub fn weigh(tree: &[u8], classes: &[u8; 256]) -> [u32; TREE_NODES]
    requires { TreeBytes classes.now tree.now }
    ensures { Weighed (class_by classes.now) (file_table tree.now) result }
{
    let mut weight = [0u32; TREE_NODES];
    let mut sums = [0u32; TREE_NODES];
    let mut orders = [0u16; TREE_NODES];
    for i in (1..size(tree)).rev() {
        let above = parent(tree, i);
        let own = node_weight(tree, classes, i, sums[i], orders[i]);
        weight[i] = own;
        sums[above] = sums[above].wrapping_add(own);
        orders[above] = with_child(tree, classes, i, own, orders[above]);
    }
    weight
}
