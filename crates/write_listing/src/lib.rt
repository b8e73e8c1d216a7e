// The listing's lines, written into a lent buffer: "First line: the word nodes and their number"; "Then number, parent, label, value" of each node.
// Stays: buffer and place go in and the next place comes out, because a struct that holds the `&mut` owes in each function that it holds it still, and is
// no plainer.
#![tactic(auto)]

ghost use Rattle.std.specs.Prelude.{◌+◌, ◌*◌, ◌<◌, ◌≤◌, length};
ghost use Rattle.meaning.specs.Listing.{decimal};
ghost use Rattle.tree_table.specs.FileTable.{file_table, class_by, TreeBytes};
ghost use Rattle.write_bytes.specs.Wrote.{Wrote};
ghost use Rattle.write_listing.specs.Writing.{WroteLine};
ghost use Rattle.write_listing.specs.Lines.{Shows, text_of, field_of, head_of, line_of, line_at, block_of};

use read_record::classes::is_element;
use tree_table::fields::{label, parent, size, value};
use write_bytes::put;

const TEN: usize = 10;

const ZERO: usize = 48;

const SPACE: u8 = b' ';

const NEWLINE: u8 = b'\n';
// "Block k is lines 1,024k to 1,024k + 1,023"; 4,096 nodes and the first line stand in five blocks.
const BLOCK_LINES: usize = 1024;

const BLOCKS: usize = 5;

// A number in decimal digits.
pub fn put_decimal(out: &mut [u8], at: usize, n: usize) -> usize
    requires { at + length (decimal n) ≤ length out.old }
    ensures { Wrote out.old out.new at (decimal n) result }
{
    if n < TEN {
        out[at] = (ZERO + n) as u8;
        return at + 1;
    }
    let next = put_decimal(out, at, n / TEN);
    out[next] = (ZERO + n % TEN) as u8;
    next + 1
}

// A number, or `-` "for no parent or no value".
fn put_shown(out: &mut [u8], at: usize, shown: Option<usize>) -> usize
    requires { at + length (text_of shown) ≤ length out.old }
    ensures { Wrote out.old out.new at (text_of shown) result }
{
    match shown {
        Some(n) => put_decimal(out, at, n),
        None => put(out, at, b"-"),
    }
}

// The same with the byte behind it.
pub fn put_field(out: &mut [u8], at: usize, shown: Option<usize>, end: u8) -> usize
    requires { Shows shown × (at + 11 ≤ length out.old) }
    ensures { Wrote out.old out.new at (field_of shown end) result }
{
    let next = put_shown(out, at, shown);
    put(out, next, &[end])
}

// "First line: the word nodes and their number."
fn put_head(out: &mut [u8], at: usize, tree: &[u8], classes: &[u8; 256]) -> usize
    requires { TreeBytes classes.now tree.now × (at + 44 ≤ length out.old) }
    ensures { WroteLine out.old out.new at (head_of (file_table tree.now)) result }
{
    let next = put(out, at, b"nodes ");
    put_field(out, next, Some(size(tree)), NEWLINE)
}

// "Then number, parent, label, value; `-` for no parent or no value."
fn put_node(out: &mut [u8], at: usize, tree: &[u8], classes: &[u8; 256], x: usize) -> usize
    requires { TreeBytes classes.now tree.now × (x < (file_table tree.now).size) × (at + 44 ≤ length out.old) }
    ensures { WroteLine out.old out.new at (line_of (class_by classes.now) (file_table tree.now) x) result }
{
    let of_node = label(tree, x);
    let leaf = !is_element(classes, of_node);
    let after_number = put_field(out, at, Some(x), SPACE);
    let above = (x != 0).then_some(parent(tree, x));
    let after_parent = put_field(out, after_number, above, SPACE);
    let after_label = put_field(out, after_parent, Some(of_node), SPACE);
    put_field(out, after_label, leaf.then_some(value(tree, x)), NEWLINE)
}

fn put_line(out: &mut [u8], at: usize, tree: &[u8], classes: &[u8; 256], i: usize) -> usize
    requires { TreeBytes classes.now tree.now × (i < (file_table tree.now).size + 1) × (at + 44 ≤ length out.old) }
    ensures { WroteLine out.old out.new at (line_at (class_by classes.now) (file_table tree.now) i) result }
{
    if i == 0 {
        return put_head(out, at, tree, classes);
    }
    put_node(out, at, tree, classes, i - 1)
}

// "Block k is lines 1,024k to 1,024k + 1,023, past the end 0 bytes"; bytes behind the block stay.
pub fn put_block(out: &mut [u8], tree: &[u8], classes: &[u8; 256], k: usize) -> usize
    requires { TreeBytes classes.now tree.now × (65536 ≤ length out.old) }
    ensures { Wrote out.old out.new 0 (block_of (class_by classes.now) (file_table tree.now) k) result }
{
    if BLOCKS <= k {
        return 0;
    }
    let start = BLOCK_LINES * k;
    let end = (size(tree) + 1).min(start + BLOCK_LINES);
    let mut at = 0;
    for i in start..end {
        at = put_line(out, at, tree, classes, i);
    }
    at
}
