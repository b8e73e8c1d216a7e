// A whole tree file: its size, then its records from the front.
ghost use Rattle.std.specs.Prelude.{◌≡◌, List};
ghost use Rattle.meaning.specs.Paths.{Label};
ghost use Rattle.meaning.specs.Refusals.{tree_limit, tree_refusal};
ghost use Rattle.read_record.specs.Classes.{Tabled};
ghost use Rattle.read_judged.specs.Answers.{refusal_of};

use crate::nodes::judge_node;
use read_judged::{Fault, Judged, RefusalKind, at_record};
use read_record::bodies::WIDE_KIND;
use read_record::fields::word;
use tree_table::fields::node_kind;

// "tree 4,096 nodes (36,864 bytes)"
const TREE_BYTES: usize = 36864;
// "The limit of a tree whose record 0 is kind 5 is 45,056 bytes, still 4,096 nodes."
pub const WIDE_TREE_BYTES: usize = 45056;

fn tree_limit(kind: usize) -> usize
    ensures { result ≡ tree_limit kind }
{
    if kind == WIDE_KIND {
        return WIDE_TREE_BYTES;
    }
    TREE_BYTES
}

// The refusal of input 3, a tree, under a class table that says what the labels say, in edition 2 or 1.
pub fn read_tree(bytes: &[u8], classes: &[u8; 256], second: bool) -> Judged
    ensures { (labels : List Label) → Tabled labels classes.now → refusal_of 3 result ≡ tree_refusal second labels bytes.now }
{
    let kind = node_kind(bytes);
    if tree_limit(kind) < bytes.len() {
        return Err(Fault {
            kind: RefusalKind::TooLarge,
            place: 0,
        });
    }
    if bytes.is_empty() {
        return Err(Fault {
            kind: RefusalKind::BadNode,
            place: 0,
        });
    }
    let mut rest = bytes;
    let mut nodes = 0;
    // Stays a `while`: because a record is judged before its end is known, and its number is the place of a refusal.
    while !rest.is_empty() {
        at_record(judge_node(bytes, nodes, rest, classes, kind, second), nodes)?;
        let end = word(rest, 0);
        rest = &rest[end..];
        nodes += 1;
    }
    Ok(())
}
