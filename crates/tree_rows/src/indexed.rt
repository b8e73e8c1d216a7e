// A tree with its rows.
use crate::rows::Rows;

// That the rows are the tree's (`Prepared`) stays a clause of each function, and no ghost field: that may have one proof at most, and value-equal nodes
// can be paired in more ways than one.
#[derive(Clone, Copy)]
pub struct Indexed<'a> {
    pub tree: &'a [u8],
    pub classes: &'a [u8; 256],
    pub rows: &'a Rows,
}
