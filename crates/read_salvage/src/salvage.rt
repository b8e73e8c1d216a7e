// A whole damaged tree file: what is left of it, and the reason of each record.
ghost use Rattle.std.specs.Prelude.{◌≡◌, ◌<◌, ◌≤◌, Ok, length};
ghost use Rattle.read_judged.specs.Answers.{told};
ghost use Rattle.read_salvage.specs.Loop.{number_by, count_by};
ghost use Rattle.read_salvage.specs.Told.{SalvagedInto};
ghost use Rattle.read_salvage.specs.Ends.{Begins};

use crate::records::{Counts, RECORDS, judge_record};
use read_judged::{Fault, RefusalKind};
use read_record::bodies::whole;
use read_record::fields::word;
use read_record::limits::{NO_NUMBER, TREE_NODES};
use read_tree::nodes::judge_node;
use tree_table::fields::{bytes_of, node_kind};

// What the walk comes to: the bytes used in `out`, how many records were passed, and whether a fault of number 1 stopped the walk.
#[derive(Clone, Copy, Debug, PartialEq, Eq)]
pub struct Passed {
    pub used: usize,
    pub records: usize,
    pub stopped: bool,
}

// The number of a record's reason, 0 where it is kept.
fn reason_of(judged: Result<(), RefusalKind>) -> usize
    ensures { result ≡ told judged }
{
    match judged {
        Ok(()) => 0,
        Err(kind) => kind.number(),
    }
}

// The new number of a record, 65535 where it is dropped.
fn new_number(judged: Result<(), RefusalKind>, nodes: usize) -> usize
    requires { nodes < 65536 }
    ensures { (result ≡ number_by (told judged) nodes) × (result < 65536) }
{
    match judged {
        Ok(()) => nodes,
        Err(_) => NO_NUMBER,
    }
}

// How many nodes are kept after the record.
fn kept_nodes(judged: Result<(), RefusalKind>, nodes: usize) -> usize
    requires { nodes < 65536 }
    ensures { result ≡ count_by (told judged) nodes }
{
    match judged {
        Ok(()) => nodes + 1,
        Err(_) => nodes,
    }
}

fn no_places() -> [u16; RECORDS]
    ensures { length result ≡ 11264 }
{
    [0u16; RECORDS]
}

// The records from the front, where record 0 is a valid root: "renumbers the rest in order".
fn pass_records(
    tree: &[u8],
    classes: &[u8; 256],
    kind: usize,
    second: bool,
    out: &mut [u8],
    reasons: &mut [u8; RECORDS],
) -> Passed
    requires { Begins second kind classes.now tree.now × (45056 ≤ length out.old) × (length reasons.old ≡ 11264) }
    ensures { SalvagedInto second classes.now tree.now out.new reasons.new (Ok result) }
{
    let mut places = no_places();
    let mut rest = tree;
    let mut nodes = 0;
    let mut records = 0;
    // Stays a `while`: because a record is judged before its end is known, and its number is the place of a refusal.
    while !rest.is_empty() {
        if !whole(rest) {
            return Passed {
                used: bytes_of(kind) * nodes,
                records,
                stopped: true,
            };
        }
        let counts = Counts { nodes, records };
        let judged = judge_record(out, rest, &places, counts, classes, kind, second);
        reasons[records] = reason_of(judged) as u8;
        places[records] = new_number(judged, nodes) as u16;
        nodes = kept_nodes(judged, nodes);
        records += 1;
        let end = word(rest, 0);
        rest = &rest[end..];
    }
    Passed {
        used: bytes_of(kind) * nodes,
        records,
        stopped: false,
    }
}

// "drops each node record that refusals 2, 8 or 16 would reject, with all its descendants, stops at the first fault of number 1 (listed last),
// renumbers the rest in order": what is left stands at the front of `out`, the reason of each record (0: kept) at the front of `reasons`.
// "A file over its size gives 7, one without a valid node 0 gives 8, both with no output."
pub fn salvage_into(
    tree: &[u8],
    classes: &[u8; 256],
    second: bool,
    out: &mut [u8],
    reasons: &mut [u8; RECORDS],
) -> Result<Passed, Fault>
    requires { (45056 ≤ length out.old) × (length reasons.old ≡ 11264) }
    ensures { SalvagedInto second classes.now tree.now out.new reasons.new result }
{
    let kind = node_kind(tree);
    if bytes_of(kind) * TREE_NODES < tree.len() {
        return Err(Fault {
            kind: RefusalKind::TooLarge,
            place: 0,
        });
    }
    if judge_node(tree, 0, tree, classes, kind, second).is_err() {
        return Err(Fault {
            kind: RefusalKind::BadNode,
            place: 0,
        });
    }
    Ok(pass_records(tree, classes, kind, second, out, reasons))
}
