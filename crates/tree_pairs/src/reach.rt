// What the key paths of a key reach in a tree.
use tree_rows::hung::Hung;
use tree_rows::rows::Rows;

// A tree with its rows, and the body of a key with the lists of its key paths. That all of it belongs together (`Hangs`) stays a clause of each function,
// and no ghost field: that may have one proof at most, and value-equal nodes can be paired in more ways than one.
#[derive(Clone, Copy)]
pub struct Reach<'a> {
    pub tree: &'a [u8],
    pub classes: &'a [u8; 256],
    pub rows: &'a Rows,
    pub body: &'a [u8],
    pub hung: &'a [Hung; 4],
}
