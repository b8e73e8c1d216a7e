// The targets of a key as the search takes them.
use tree_pairs::reach::Reach;
use tree_sorted::sorted::Sorted;

// What the key reaches, its targets sorted, and the key path that the search goes along.
#[derive(Clone, Copy)]
pub struct Targets<'a> {
    pub reach: Reach<'a>,
    pub sorted: &'a Sorted,
    pub pivot: usize,
}
