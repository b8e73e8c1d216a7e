// The children of a node of one kind, along the links.
ghost use Rattle.std.specs.Prelude.{◌<◌};
ghost use Rattle.tree_table.specs.FileTable.{file_table, class_by};
ghost use Rattle.tree_table.specs.Seek.{Sought};
ghost use Rattle.tree_equal.specs.Known.{KnownFrom};

use read_record::classes::is_attribute;
use tree_rows::rows::Rows;
use tree_table::fields::label;

// An accepted tree and its rows, in which the nodes from number `from` on have their families already. `KnownFrom` stays a clause of each function, and
// no ghost field: that may have one proof at most, and value-equal nodes can be paired in more ways than one.
#[derive(Clone, Copy)]
pub struct Known<'a> {
    pub tree: &'a [u8],
    pub classes: &'a [u8; 256],
    pub rows: &'a Rows,
    pub from: usize,
}

// The first node of a kind (attribute, or not) among node i and its next siblings; 0 where there is none.
// Stays a `while`, here and in the walks over what is sought: a list by links has no number to count, and ends where its link is 0 (`Nexts`).
pub fn seek(known: &Known, i: usize, attribute: bool) -> usize
    requires nodes { KnownFrom known.now.classes.now known.now.tree.now known.now.rows.now known.now.from }
    requires i_bound { i < (file_table known.now.tree.now).size }
    ensures { Sought (class_by known.now.classes.now) (file_table known.now.tree.now) attribute i result }
{
    let mut at_node = i;
    // Stays a `while`: because a list by links counts nothing.
    while at_node != 0 && is_attribute(known.classes, label(known.tree, at_node)) != attribute {
        at_node = known.rows.next_sibling(at_node);
    }
    at_node
}
