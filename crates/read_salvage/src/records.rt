// One record of a damaged tree file, judged beside the nodes kept so far.
ghost use Rattle.std.specs.Prelude.{◌≡◌, ◌+◌, ◌*◌, ◌<◌, ◌≤◌, true, length, take, drop, get_or};
ghost use Rattle.meaning.specs.Refusals.{first_of, whole as whole_record};
ghost use Rattle.read_judged.specs.Answers.{told};
ghost use Rattle.theory_records.specs.Encodings.{IsNodeKind};
ghost use Rattle.theory_records.specs.TreeFiles.{stride};
ghost use Rattle.read_tree.specs.Nodes.{node_tests_by};
ghost use Rattle.write_bytes.specs.Wrote.{Wrote};
ghost use Rattle.read_salvage.specs.Moved.{moved_bytes, RecordJudged};

use read_judged::RefusalKind;
use read_record::fields::{BYTE, KIND_AT, word};
use read_record::limits::{LABEL_AT, NO_NUMBER, PARENT_AT};
use read_tree::nodes::judge_node;
use tree_table::fields::bytes_of;
use write_bytes::put;

// A damaged file of 45,056 bytes may hold records of 4 bytes.
pub const RECORDS: usize = 11264;

// How many nodes were kept, of how many records.
#[derive(Clone, Copy)]
pub struct Counts {
    pub nodes: usize,
    pub records: usize,
}

// "Parent numbers are read as record numbers of the damaged file, spoiled records counted." A parent that is not kept gives 65535, which is no node.
fn new_parent(places: &[u16; RECORDS], records: usize, parent: usize) -> usize
    requires { (records ≤ 11264) × (length places.now ≡ 11264) }
    ensures { (result ≡ get_or (take records places.now) parent 65535) × (result < 65536) }
{
    if parent < records {
        return usize::from(places[parent]);
    }
    NO_NUMBER
}

// The node record with its new parent, behind the nodes kept.
fn put_moved(out: &mut [u8], at: usize, node: &[u8], parent: usize) -> usize
    requires { (6 ≤ length node.now) × (at + length node.now ≤ length out.old) }
    ensures { Wrote out.old out.new at (moved_bytes node.now parent) result }
{
    let parent_at = put(out, at, &node[..PARENT_AT]);
    out[parent_at] = (parent % BYTE) as u8;
    out[parent_at + 1] = (parent / BYTE % BYTE) as u8;
    put(out, at + LABEL_AT, &node[LABEL_AT..])
}

// The node that stands at a place, judged as the next of a tree.
fn judge_put(
    out: &[u8],
    at: usize,
    nodes: usize,
    classes: &[u8; 256],
    kind: usize,
    second: bool,
) -> Result<(), RefusalKind>
    requires { IsNodeKind kind × (at ≡ stride kind * nodes) × (at ≤ length out.now) }
    ensures { told result ≡ first_of (node_tests_by second kind classes.now out.now nodes (drop at out.now)) }
{
    judge_node(out, nodes, &out[at..], classes, kind, second)
}

// Why the whole record at the front of `rest` is not kept: 2, then 8 and 16 of the node as it is put behind those kept.
pub fn judge_record(
    out: &mut [u8],
    rest: &[u8],
    places: &[u16; RECORDS],
    counts: Counts,
    classes: &[u8; 256],
    kind: usize,
    second: bool,
) -> Result<(), RefusalKind>
    requires { IsNodeKind kind × (stride kind * counts.nodes + length rest.now ≤ length out.old) × (counts.records ≤ 11264) × (length places.now ≡ 11264) × (whole_record rest.now ≡ true) }
    ensures { RecordJudged second kind classes.now places.now counts.nodes counts.records out.old out.new rest.now (told result) }
{
    if word(rest, KIND_AT) != kind {
        return Err(RefusalKind::NotAllowed);
    }
    let nodes = counts.nodes;
    let at = bytes_of(kind) * nodes;
    let end = word(rest, 0);
    let old = word(rest, PARENT_AT);
    let parent = new_parent(places, counts.records, old);
    put_moved(out, at, &rest[..end], parent);
    judge_put(out, at, nodes, classes, kind, second)
}
