// The numbers of document 01 that more than one crate needs, each once, under the names of `meaning`'s Limits.

// "Label 1 is text .. 201 is a filler element, 202 a filler attribute, 203 the root"
pub const TEXT: usize = 1;

pub const FILLER_ELEMENT: usize = 201;

pub const FILLER_ATTRIBUTE: usize = 202;

pub const ROOT_LABEL: usize = 203;
// "the root is node 0 with parent 65535"; "an unused premise field is 65535"
pub const NO_NUMBER: usize = 65535;
// "tree 4,096 nodes"
pub const TREE_NODES: usize = 4096;
// "In a proof line, C and T may have 32 symbols"
pub const LINE_SYMBOLS: usize = 32;
// Where parent, label and value stand in a node's record, and its bytes: the head's 4 and the body's 5, or 7 of kind 5
pub const PARENT_AT: usize = 4;

pub const LABEL_AT: usize = 6;

pub const VALUE_AT: usize = 7;

pub const NODE_BYTES: usize = 9;

pub const WIDE_BYTES: usize = 11;
// Where the key stands in a proof line's record: behind the head's 4 bytes and the fields' 5
pub const KEY_IN_LINE: usize = 9;
// The rules of inference, by their numbers
pub const CITATION: usize = 0;

pub const EPSILON: usize = 1;

pub const PREFIX_EPSILON: usize = 2;

pub const SUPERKEY: usize = 3;

pub const SUBNODES: usize = 4;

pub const CONTEXT_PATH: usize = 5;

pub const TARGET_PATH: usize = 6;

pub const CONTEXT_TARGET: usize = 7;

pub const SUBNODES_EPSILON: usize = 8;

pub const INTERACTION: usize = 9;

pub const ONE_ATTRIBUTE: usize = 10;
