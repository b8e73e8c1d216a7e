// Value equality of two nodes: "equality of two nodes calls equality of their child lists, which calls node equality again; nodes left below fall."
// Nodes from number `from` on have their families already and are compared by them, so a call costs the children of x and y.
#![tactic(auto)]

mod attributes;
mod children;

ghost use Rattle.std.specs.Prelude.{false, ◌+◌, ◌<◌, ◌≤◌};
ghost use Rattle.meaning.specs.Trees.{Equal, EqualLists};
ghost use Rattle.tree_table.specs.FileTable.{file_table, class_by};
ghost use Rattle.tree_table.specs.Rest.{list_of};
ghost use Rattle.tree_table.specs.Tells.{Tells};
ghost use Rattle.tree_equal.specs.Known.{KnownFrom};
ghost use Rattle.tree_equal.specs.Marks.{Clean};

use crate::attributes::attributes_eq;
pub use crate::children::Known;
use crate::children::seek;
use read_record::classes::is_element;
use read_record::limits::TREE_NODES;
use tree_table::fields::{label, value};

// "Two nodes are value-equal if the labels are equal and, for attribute or text, the values are equal; for elements, .." Asked of nodes whose
// children all stand at or behind `from`. The marks are lent to count attributes: all 0 before and after.
#[cycle(children_eq_node_eq)]
pub fn node_eq(known: &Known, marks: &mut [u16; TREE_NODES], x: usize, y: usize) -> bool
    requires nodes { KnownFrom known.now.classes.now known.now.tree.now known.now.rows.now known.now.from }
    requires x_bound { (x < (file_table known.now.tree.now).size) × (y < (file_table known.now.tree.now).size) × (known.now.from ≤ x + 1) × (known.now.from ≤ y + 1)
        × Clean marks.old }
    ensures { Tells (Equal (class_by known.now.classes.now) (file_table known.now.tree.now) x y) result × Clean marks.new }
{
    if known.from <= x && known.from <= y {
        return known.rows.family_of(x) == known.rows.family_of(y);
    }
    let label_x = label(known.tree, x);
    if label_x != label(known.tree, y) {
        return false;
    }
    if !is_element(known.classes, label_x) {
        return value(known.tree, x) == value(known.tree, y);
    }
    attributes_eq(known, marks, x, y) && children_eq(known, marks, x, y)
}

// ".. and likewise the other children", in table order.
#[cycle(children_eq_node_eq)]
fn children_eq(known: &Known, marks: &mut [u16; TREE_NODES], x: usize, y: usize) -> bool
    requires nodes { KnownFrom known.now.classes.now known.now.tree.now known.now.rows.now known.now.from }
    requires x_bound { (x < (file_table known.now.tree.now).size) × (y < (file_table known.now.tree.now).size) × (known.now.from ≤ x + 1) × (known.now.from ≤ y + 1)
        × Clean marks.old }
    ensures { Tells
        (EqualLists (class_by known.now.classes.now) (file_table known.now.tree.now)
        (list_of (class_by known.now.classes.now) (file_table known.now.tree.now) false x)
        (list_of (class_by known.now.classes.now) (file_table known.now.tree.now) false y)) result × Clean marks.new }
{
    let mut i = seek(known, known.rows.first_child(x), false);
    let mut j = seek(known, known.rows.first_child(y), false);
    // Stays a `while`: because a list by links counts nothing.
    while i != 0 {
        if j == 0 || !node_eq(known, marks, i, j) {
            return false;
        }
        i = seek(known, known.rows.next_sibling(i), false);
        j = seek(known, known.rows.next_sibling(j), false);
    }
    j == 0
}
