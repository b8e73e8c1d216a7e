// The counterexample written into the answer buffer: the pattern's nodes from root to u once, then all the others as a first and as a second copy.
#![tactic(auto)]

ghost use Rattle.std.specs.Prelude.{◌≡◌, ◌+◌, ◌-◌, ◌*◌, ◌/◌, ◌%◌, ◌<◌, ◌≤◌, length};
ghost use Rattle.meaning.specs.Records.{key_in, node_bytes};
ghost use Rattle.read_record.specs.Classes.{class_by};
ghost use Rattle.write_pattern.specs.Sketch.{Sized, Sketchable, entry_at};
ghost use Rattle.write_tree.specs.Front.{Front};
ghost use Rattle.write_tree.specs.Written.{parent_of, value_of, node_from, copy_bytes, Copying, TreeAtFront};

use read_record::classes::is_element;
use read_record::limits::{NO_NUMBER, WIDE_BYTES};
use write_bytes::put;
use write_pattern::{Drawing, Entry, draw_below, draw_trunk};

// "length of the whole record (two bytes, little-endian), kind (two bytes), body"; 11 bytes a node record, kind 5
const NODE_LENGTH: u8 = 11;

const WIDE_KIND: u8 = 5;

// How many values two bytes have, and four.
const WORDS: usize = 65536;

const WIDE_WORDS: usize = 4294967296;

// "parent (2), label (1)", value (4), the low byte first
fn write_node(out: &mut [u8], parent: usize, label: u8, value: usize)
    requires { 11 ≤ length out.old }
    ensures { Front out.old out.new (node_bytes 5 (record { parent = parent; label = label; value = value })) }
{
    let parent_at = put(out, 0, &[NODE_LENGTH, 0, WIDE_KIND, 0]);
    let above = (parent % WORDS) as u16;
    let label_at = put(out, parent_at, &above.to_le_bytes());
    let value_at = put(out, label_at, &[label]);
    let own = (value % WIDE_WORDS) as u32;
    put(out, value_at, &own.to_le_bytes());
}

// What stands before the cut is there once; the others hang under their own copy's nodes.
// Stays: a number where there is no parent, because the record has it so.
fn parent_of(above: usize, cut: usize, shift: usize, x: usize) -> usize
    requires { (above < 256) × (shift ≤ 128) }
    ensures { result ≡ parent_of above cut shift x }
{
    if x == 0 {
        return NO_NUMBER;
    }
    if above < cut {
        return above;
    }
    above + shift
}

// "its own node number as value, except that in the second copy a marked node .. has the value of its twin"
fn value_of(element: bool, mark: bool, shift: usize, x: usize) -> usize
    requires { (x < 128) × (shift ≤ 128) }
    ensures { result ≡ value_of element mark shift x }
{
    if element {
        return 0;
    }
    if mark {
        return x;
    }
    x + shift
}

// Number x of the drawing, `shift` numbers further on.
fn write_drawn(
    out: &mut [u8],
    drawing: Drawing,
    classes: &[u8; 256],
    cut: usize,
    shift: usize,
    x: usize,
)
    requires { Sized drawing × (x < 128) × (shift ≤ 128) × (11 ≤ length out.old) }
    ensures { Front out.old out.new (node_bytes 5 (node_from (class_by classes.now) cut shift x (entry_at drawing x))) }
{
    let Entry {
        parent,
        label,
        mark,
    } = drawing.entries[x];
    let above = usize::from(parent);
    let element = is_element(classes, usize::from(label));
    let parent = parent_of(above, cut, shift, x);
    write_node(out, parent, label, value_of(element, mark, shift, x));
}

// The numbers of a copy, or of the trunk, one after another; each is written into what is left of the buffer.
fn write_copy(
    out: &mut [u8],
    drawing: Drawing,
    classes: &[u8; 256],
    from: usize,
    to: usize,
    cut: usize,
    shift: usize,
)
    requires { Copying drawing from to shift (length out.old) }
    ensures { Front out.old out.new (copy_bytes (class_by classes.now) drawing cut shift from (to - from)) }
{
    for x in from..to {
        let at = WIDE_BYTES * (x - from);
        write_drawn(&mut out[at..], drawing, classes, cut, shift, x);
    }
}

// "The tree is the pattern's nodes from root to u once; then all the others .. as a first copy, then as a second copy."
pub fn write_tree(out: &mut [u8], asked: &[u8], classes: &[u8; 256], u: usize) -> usize
    requires { Sketchable asked.now u × (65536 ≤ length out.old) }
    ensures { TreeAtFront (class_by classes.now) (key_in asked.now) u out.old out.new result }
{
    let trunk = draw_trunk(asked, classes, u);
    let cut = trunk.size;
    let drawing = draw_below(trunk, asked, classes, u);
    let all = drawing.size;
    let gap = all - cut;
    write_copy(out, drawing, classes, 0, cut, cut, 0);
    let first = WIDE_BYTES * cut;
    write_copy(&mut out[first..], drawing, classes, cut, all, cut, 0);
    let second = WIDE_BYTES * all;
    write_copy(&mut out[second..], drawing, classes, cut, all, cut, gap);
    second + WIDE_BYTES * gap
}
