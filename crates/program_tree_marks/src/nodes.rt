// The nodes of a tree that was accepted: all records have the length of record 0.
ghost use Rattle.std.specs.Prelude.{◌≤◌, ◌<◌};

use program_layout::names::{has_value, print_label};
use program_layout::parts::{byte_at, part, record_kind, word_at};
use read_record::bodies::WIDE_KIND;
use read_record::limits::{LABEL_AT, NODE_BYTES, PARENT_AT, TREE_NODES, VALUE_AT, WIDE_BYTES};
use std::io;

fn node_size(tree: &[u8]) -> usize
    ensures { (0 < result) × (result ≤ 16) }
{
    match record_kind(tree) {
        WIDE_KIND => WIDE_BYTES,
        _ => NODE_BYTES,
    }
}

pub fn node_count(tree: &[u8]) -> usize
    ensures { result ≤ 4096 }
{
    (tree.len() / node_size(tree)).min(TREE_NODES)
}

// A node's record: the empty part where there is none.
pub fn node(tree: &[u8], n: usize) -> &[u8] {
    if TREE_NODES <= n {
        return &tree[..0];
    }
    let size = node_size(tree);
    part(tree, n * size, n * size + size)
}

pub fn parent_of(record: &[u8]) -> usize {
    word_at(record, PARENT_AT)
}

pub fn label_of(record: &[u8]) -> usize {
    byte_at(record, LABEL_AT)
}

// Where the upper half of "a four-byte value" stands, and what it counts
const UPPER_AT: usize = 9;

const UPPER: usize = 65536;

pub fn value_of(record: &[u8]) -> usize {
    let low = word_at(record, VALUE_AT);
    match record_kind(record) {
        WIDE_KIND => low + UPPER * word_at(record, UPPER_AT),
        _ => low,
    }
}

// Label and value: attributes and text have one.
pub fn print_text(rt: &impl Print, profile: &[u8], record: &[u8]) -> io::Result<()> {
    print_label(rt, profile, label_of(record))?;
    if has_value(profile, label_of(record)) {
        print!(rt; " = {}", value_of(record))?;
    }
    Ok(())
}

fn one_below(depths: &[usize; TREE_NODES], parent: usize) -> usize {
    depths
        .get(parent)
        .map_or(0, |depth| (*depth).min(TREE_NODES) + 1)
}

// How many steps each node lies below the root: a parent has a smaller number.
pub fn depths_of(tree: &[u8]) -> [usize; TREE_NODES] {
    let mut depths = [0; TREE_NODES];
    for n in 1..node_count(tree) {
        depths[n] = one_below(&depths, parent_of(node(tree, n)));
    }
    depths
}
