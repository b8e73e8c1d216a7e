// The fields of a node record: "length (2), kind (2), parent (2), label (1), value (2)", or value (4).
ghost use Rattle.std.specs.Prelude.{◌≡◌, ◌+◌, ◌<◌, ◌≤◌};
ghost use Rattle.meaning.specs.Records.{value_bytes};
ghost use Rattle.meaning.specs.Refusals.{node_kind_in};
ghost use Rattle.tree_table.specs.FileTable.{file_stride, file_table};

use read_record::bodies::{NODE_KIND, WIDE_KIND};
use read_record::fields::{HEAD_BYTES, KIND_AT, number, word};
use read_record::limits::{LABEL_AT, NODE_BYTES, PARENT_AT, VALUE_AT, WIDE_BYTES};

// The kind of the file's nodes: that of its record 0, whose 4 head bytes decide.
pub fn node_kind(tree: &[u8]) -> usize
    ensures { result ≡ node_kind_in tree.now }
{
    if HEAD_BYTES <= tree.len() && word(tree, KIND_AT) == WIDE_KIND {
        WIDE_KIND
    } else {
        NODE_KIND
    }
}

// How many bytes a node record of the kind has.
pub fn bytes_of(kind: usize) -> usize
    ensures { (result ≡ 7 + value_bytes kind) × (9 ≤ result) × (result ≤ 11) }
{
    match kind {
        WIDE_KIND => WIDE_BYTES,
        _ => NODE_BYTES,
    }
}

fn node_bytes(tree: &[u8]) -> usize
    ensures { (result ≡ file_stride tree.now) × (9 ≤ result) × (result ≤ 11) }
{
    bytes_of(node_kind(tree))
}

// How many nodes the bytes hold.
pub fn size(tree: &[u8]) -> usize
    ensures { result ≡ (file_table tree.now).size }
{
    tree.len() / node_bytes(tree)
}

pub fn parent(tree: &[u8], i: usize) -> usize
    requires { i < (file_table tree.now).size }
    ensures { (result ≡ (file_table tree.now).parent i) × (result < 65536) }
{
    word(tree, node_bytes(tree) * i + PARENT_AT)
}

pub fn label(tree: &[u8], i: usize) -> usize
    requires { i < (file_table tree.now).size }
    ensures { (result ≡ (file_table tree.now).label i) × (result < 256) }
{
    usize::from(tree[node_bytes(tree) * i + LABEL_AT])
}

pub fn value(tree: &[u8], i: usize) -> usize
    requires { i < (file_table tree.now).size }
    ensures { (result ≡ (file_table tree.now).value i) × (result < 4294967296) }
{
    let long = node_bytes(tree);
    let at = long * i;
    number(&tree[at + VALUE_AT..at + long])
}
