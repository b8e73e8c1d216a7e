// `show tree` and `show all`: a line for each node, branch by branch.
ghost use Rattle.std.specs.Prelude.{◌≤◌};

use crate::order::{by_branch, node_number};
use program_layout::columns::{digits, print_spaces};
use program_layout::names::{has_value, label_width};
use program_tree_marks::marks::Broken;
use program_tree_marks::nodes::{depths_of, label_of, node, node_count, print_text, value_of};
use read_record::limits::TREE_NODES;
use std::io;

// The places of a node's number, and of a step below the root
const NUMBER_PLACES: usize = 4;

const STEP_PLACES: usize = 2;

// Between a label and a value: ` = `
const EQUALS_PLACES: usize = 3;

// Marks stand so far behind the longest text, which counts as so long at least.
const GAP: usize = 2;

const LEAST_WIDTH: usize = 20;

// No name and no number is so long.
const WORD_PLACES: usize = 65535;

fn indent(depth: usize) -> usize
    ensures { result ≤ 8192 }
{
    STEP_PLACES * depth.min(TREE_NODES)
}

fn value_width(profile: &[u8], record: &[u8]) -> usize
    ensures { result ≤ 65538 }
{
    if has_value(profile, label_of(record)) {
        return digits(value_of(record)).min(WORD_PLACES) + EQUALS_PLACES;
    }
    0
}

// How many places indent, label and value take.
fn text_width(profile: &[u8], record: &[u8], depth: usize) -> usize {
    let name = label_width(profile, label_of(record)).min(WORD_PLACES);
    indent(depth) + name + value_width(profile, record)
}

// The longest text of the nodes that are shown.
fn widest(broken: &Broken, all: bool, depths: &[usize; TREE_NODES]) -> usize {
    let mut width = LEAST_WIDTH;
    for n in 0..node_count(broken.tree) {
        if broken.is_shown(n, all) {
            let record = node(broken.tree, n);
            width = width.max(text_width(broken.profile, record, depths[n]));
        }
    }
    width
}

// Number, indent, label and value; then the marks, behind the longest text.
fn print_node(
    rt: &impl Print,
    broken: &Broken,
    n: usize,
    depth: usize,
    longest: usize,
) -> io::Result<()> {
    let record = node(broken.tree, n);
    print!(rt; "{n:>NUMBER_PLACES$} ")?;
    print_spaces(rt, indent(depth))?;
    print_text(rt, broken.profile, record)?;
    if broken.has_mark(n) {
        let width = text_width(broken.profile, record, depth);
        print_spaces(rt, longest.saturating_sub(width))?;
        print_spaces(rt, GAP)?;
        broken.print_marks(rt, n)?;
    }
    println!(rt)
}

pub fn print_lines(rt: &impl Print, broken: &Broken, all: bool) -> io::Result<()> {
    let depths = depths_of(broken.tree);
    let longest = widest(broken, all, &depths);
    let order = by_branch(broken.tree);
    for &place in order.iter().take(node_count(broken.tree)) {
        let n = node_number(place);
        if broken.is_shown(n, all) {
            print_node(rt, broken, n, depths[n], longest)?;
        }
    }
    Ok(())
}
