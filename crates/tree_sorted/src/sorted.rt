// The targets of a key, sorted.
use read_record::limits::TREE_NODES;

#[derive(Drop)]
pub struct Sorted {
    // The highest context of each node; 4,096 where it has none.
    pub top: [u16; TREE_NODES],
    // The group of each target; as many as there are nodes, or more, where it has none.
    pub group: [u16; TREE_NODES],
    // The number of each node that a key path reaches.
    pub number: [u16; TREE_NODES],
    // The next node of that number; 0 where there is none.
    pub chain: [u16; TREE_NODES],
    // At each group the family met there last; 0 where there is none.
    pub stamp: [u16; TREE_NODES],
    // At each group the first node of that family; in the end, to each number its first node.
    pub lead: [u16; TREE_NODES],
}
