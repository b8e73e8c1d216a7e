// Some one-to-one pairing makes the attributes of two elements equal. Attributes of known families are paired by family: those of the one element put
// a mark at their family, those of the other take one off. So a call costs the children of both, in whatever order.
ghost use Rattle.std.specs.Prelude.{◌≡◌, true, ◌+◌, ◌<◌, ◌≤◌, length};
ghost use Rattle.meaning.specs.Trees.{EqualSets};
ghost use Rattle.tree_table.specs.FileTable.{file_table, class_by};
ghost use Rattle.tree_table.specs.Rest.{list_of};
ghost use Rattle.tree_table.specs.Tells.{Tells};
ghost use Rattle.tree_equal.specs.Known.{KnownFrom};
ghost use Rattle.tree_equal.specs.Marks.{Clean, Marked, Left, PairedOff};

use crate::children::{Known, seek};
use read_record::limits::TREE_NODES;

// A mark at the family of each attribute of v; how many they are.
fn mark(known: &Known, marks: &mut [u16; TREE_NODES], v: usize) -> usize
    requires nodes { KnownFrom known.now.classes.now known.now.tree.now known.now.rows.now known.now.from }
    requires v_bound { (v < (file_table known.now.tree.now).size) × (known.now.from ≤ v + 1) × Clean marks.old }
    ensures { Marked known.now.rows.now.family (list_of (class_by known.now.classes.now) (file_table known.now.tree.now) true v) marks.new
        × (result ≡ length (list_of (class_by known.now.classes.now) (file_table known.now.tree.now) true v)) }
{
    let mut found = 0;
    let mut k = seek(known, known.rows.first_child(v), true);
    // Stays a `while`: because a list by links counts nothing.
    while k != 0 {
        marks[known.rows.family_of(k)] += 1;
        found += 1;
        k = seek(known, known.rows.next_sibling(k), true);
    }
    found
}

// Each attribute of x takes a mark off at its family. The marks are those of y; they are equally many where none is missed and none is left.
fn pair_off(known: &Known, marks: &mut [u16; TREE_NODES], x: usize, y: usize, marked: usize) -> bool
    requires nodes { KnownFrom known.now.classes.now known.now.tree.now known.now.rows.now known.now.from }
    requires x_bound { (x < (file_table known.now.tree.now).size) × (y < (file_table known.now.tree.now).size) × (known.now.from ≤ x + 1) × (known.now.from ≤ y + 1) }
    requires marked { Marked known.now.rows.now.family (list_of (class_by known.now.classes.now) (file_table known.now.tree.now) true y) marks.old
        × (marked ≡ length (list_of (class_by known.now.classes.now) (file_table known.now.tree.now) true y)) }
    ensures { PairedOff (class_by known.now.classes.now) (file_table known.now.tree.now) known.now.rows.now.family x y marks.new result }
{
    let mut paired: usize = 0;
    let mut i = seek(known, known.rows.first_child(x), true);
    // Stays a `while`: because a list by links counts nothing.
    while i != 0 {
        let own = known.rows.family_of(i);
        if marks[own] == 0 {
            return false;
        }
        marks[own] -= 1;
        paired += 1;
        i = seek(known, known.rows.next_sibling(i), true);
    }
    paired == marked
}

// No mark is left at the family of an attribute of v.
fn unmark(known: &Known, marks: &mut [u16; TREE_NODES], v: usize)
    requires nodes { KnownFrom known.now.classes.now known.now.tree.now known.now.rows.now known.now.from }
    requires v_bound { (v < (file_table known.now.tree.now).size) × (known.now.from ≤ v + 1)
        × Left known.now.rows.now.family (list_of (class_by known.now.classes.now) (file_table known.now.tree.now) true v) marks.old }
    ensures { Clean marks.new }
{
    let mut k = seek(known, known.rows.first_child(v), true);
    // Stays a `while`: because a list by links counts nothing.
    while k != 0 {
        marks[known.rows.family_of(k)] = 0;
        k = seek(known, known.rows.next_sibling(k), true);
    }
}

// The attributes of x and y can be paired.
pub fn attributes_eq(known: &Known, marks: &mut [u16; TREE_NODES], x: usize, y: usize) -> bool
    requires nodes { KnownFrom known.now.classes.now known.now.tree.now known.now.rows.now known.now.from }
    requires x_bound { (x < (file_table known.now.tree.now).size) × (y < (file_table known.now.tree.now).size) × (known.now.from ≤ x + 1) × (known.now.from ≤ y + 1)
        × Clean marks.old }
    ensures { Tells
        (EqualSets (class_by known.now.classes.now) (file_table known.now.tree.now)
        (list_of (class_by known.now.classes.now) (file_table known.now.tree.now) true x)
        (list_of (class_by known.now.classes.now) (file_table known.now.tree.now) true y)) result × Clean marks.new }
{
    let marked = mark(known, marks, y);
    let equal = pair_off(known, marks, x, y, marked);
    if !equal {
        unmark(known, marks, y);
    }
    equal
}
