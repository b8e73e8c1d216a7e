// What the search remembers for a key.
use read_record::limits::TREE_NODES;

#[derive(Drop)]
pub struct Memo {
    // At each number one more than the target that it was looked at for last; 0 where there is none.
    pub seen: [u16; TREE_NODES],
    // Marks at families.
    pub marks: [u16; TREE_NODES],
}
