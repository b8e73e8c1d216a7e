// One node record beside those before it in the file.
ghost use Rattle.std.specs.Prelude.{◌≡◌, suc, ◌+◌, ◌-◌, ◌*◌, ◌<◌, ◌≤◌, length};
ghost use Rattle.meaning.specs.Records.{read_node};
ghost use Rattle.meaning.specs.Refusals.{first_of, good_root};
ghost use Rattle.read_record.specs.Classes.{is_label_by};
ghost use Rattle.read_judged.specs.Answers.{told};
ghost use Rattle.theory_records.specs.Encodings.{IsNodeKind};
ghost use Rattle.theory_records.specs.TreeFiles.{stride};
ghost use Rattle.read_tree.specs.Nodes.{good_below_by, good_node_by, scan, is_twin, body_tests_by, node_tests_by};

use read_judged::RefusalKind;
use read_record::bodies::whole;
use read_record::classes::{is_attribute, is_element};
use read_record::fields::{
    HEAD_BYTES, KIND_AT, node_label, node_parent, node_value, too_many, word,
};
use read_record::limits::{
    FILLER_ATTRIBUTE, FILLER_ELEMENT, LABEL_AT, NO_NUMBER, PARENT_AT, ROOT_LABEL, TEXT, TREE_NODES,
};
use tree_table::fields::bytes_of;

// A label that the class table does not declare
const UNDECLARED: u8 = 0;

// "A tree file holds only these three, 1 and declared labels."
pub fn is_label(classes: &[u8; 256], label: usize) -> bool
    requires { label < 256 }
    ensures { result ≡ is_label_by classes.now label }
{
    if label == TEXT {
        return true;
    }
    if label == FILLER_ELEMENT {
        return true;
    }
    if label == FILLER_ATTRIBUTE {
        return true;
    }
    let class = classes[label];
    class != UNDECLARED
}

// "the root is node 0 with parent 65535"; "203 at the root alone"; "An element's value is 0"
fn good_root(body: &[u8]) -> bool
    requires { (3 ≤ length body.now) × (length body.now ≤ 7) }
    ensures { result ≡ good_root (read_node body.now) }
{
    if node_parent(body) != NO_NUMBER {
        return false;
    }
    if node_label(body) != ROOT_LABEL {
        return false;
    }
    node_value(body) == 0
}

// "A node's parent has a smaller number"; "parent is attribute or text"; "An element's value is 0"
fn good_below(bytes: &[u8], nodes: usize, body: &[u8], classes: &[u8; 256], long: usize) -> bool
    requires { (9 ≤ long) × (long * nodes ≤ length bytes.now) × (3 ≤ length body.now) × (length body.now ≤ 7) }
    ensures { result ≡ good_below_by long classes.now bytes.now nodes (read_node body.now) }
{
    let parent = node_parent(body);
    if nodes <= parent {
        return false;
    }
    let above = usize::from(bytes[long * parent + LABEL_AT]);
    if !is_element(classes, above) {
        return false;
    }
    let label = node_label(body);
    if !is_label(classes, label) {
        return false;
    }
    if !is_element(classes, label) {
        return true;
    }
    node_value(body) == 0
}

// 8: "parent, label or value not as above; parent is attribute or text"; so long are the records
fn good_node(bytes: &[u8], nodes: usize, body: &[u8], classes: &[u8; 256], long: usize) -> bool
    requires { (9 ≤ long) × (long * nodes ≤ length bytes.now) × (3 ≤ length body.now) × (length body.now ≤ 7) }
    ensures { result ≡ good_node_by long classes.now bytes.now nodes (read_node body.now) }
{
    if nodes == 0 {
        return good_root(body);
    }
    good_below(bytes, nodes, body, classes, long)
}

// Node i has this parent and this label.
fn is_twin(bytes: &[u8], i: usize, parent: usize, label: usize, long: usize) -> bool
    requires { (9 ≤ long) × (long * i + long ≤ length bytes.now) }
    ensures { result ≡ is_twin long bytes.now parent label i }
{
    if word(bytes, long * i + PARENT_AT) != parent {
        return false;
    }
    usize::from(bytes[long * i + LABEL_AT]) == label
}

// Some node has, from number parent + 1 on: children stand behind their parent.
fn has_twin(bytes: &[u8], nodes: usize, parent: usize, label: usize, long: usize) -> bool
    requires { (9 ≤ long) × (long * nodes ≤ length bytes.now) × (parent < 65536) }
    ensures { result ≡ scan (is_twin long bytes.now parent label) (nodes - suc parent) (suc parent) }
{
    for i in parent + 1..nodes {
        if is_twin(bytes, i, parent, label, long) {
            return true;
        }
    }
    false
}

// 8, then 16: "repeated attribute, after 8, edition 2 only"
fn judge_body(
    bytes: &[u8],
    nodes: usize,
    body: &[u8],
    classes: &[u8; 256],
    long: usize,
    second: bool,
) -> Result<(), RefusalKind>
    requires { (9 ≤ long) × (long * nodes ≤ length bytes.now) × (3 ≤ length body.now) × (length body.now ≤ 7) }
    ensures { told result ≡ first_of (body_tests_by long second classes.now bytes.now nodes (read_node body.now)) }
{
    if !good_node(bytes, nodes, body, classes, long) {
        return Err(RefusalKind::BadNode);
    }
    if !second {
        return Ok(());
    }
    let label = node_label(body);
    if !is_attribute(classes, label) {
        return Ok(());
    }
    let parent = node_parent(body);
    if has_twin(bytes, nodes, parent, label, long) {
        return Err(RefusalKind::Repeated);
    }
    Ok(())
}

// What the node record at the front of `rest` gives, after so many nodes of the kind at the front of `bytes`.
pub fn judge_node(
    bytes: &[u8],
    nodes: usize,
    rest: &[u8],
    classes: &[u8; 256],
    kind: usize,
    second: bool,
) -> Result<(), RefusalKind>
    requires { IsNodeKind kind × (stride kind * nodes ≤ length bytes.now) }
    ensures { told result ≡ first_of (node_tests_by second kind classes.now bytes.now nodes rest.now) }
{
    if too_many(rest, kind, TREE_NODES, nodes) {
        return Err(RefusalKind::TooLarge);
    }
    if !whole(rest) {
        return Err(RefusalKind::NotWhole);
    }
    if word(rest, KIND_AT) != kind {
        return Err(RefusalKind::NotAllowed);
    }
    let end = word(rest, 0);
    let long = bytes_of(kind);
    judge_body(bytes, nodes, &rest[HEAD_BYTES..end], classes, long, second)
}
