// "Keys are judged over what is left": a line for each profile key that a tree breaks, with its first witness.
#![tactic(auto)]

ghost use Rattle.std.specs.Prelude.{◌+◌, ◌<◌, ◌≤◌, length};
ghost use Rattle.meaning.specs.Records.{key_in};
ghost use Rattle.tree_table.specs.FileTable.{file_table, class_by, TreeBytes};
ghost use Rattle.tree_rows.specs.Prepared.{Prepared};
ghost use Rattle.tree_sorted.specs.GoodKey.{GoodKey};
ghost use Rattle.op_tree_keys.specs.ProfileKeys.{KeyTested, key_body_at, KeyBodies};
ghost use Rattle.write_salvage.specs.Blocks.{Puts};
ghost use Rattle.op_salvage_keys.specs.Broken.{tested_lines, KeysTold};

use op_answers::Witness;
use op_profile::profiles::body_at_front;
use op_tree_keys::test_key;
use read_walker::record_at;
use tree_groups::prepare;
use tree_rows::rows::Rows;
use tree_search::tables::Tables;
use write_salvage::{Put, pass_broken};

// Key n of the profile, whose part from its first key on is given.
fn judge_key(
    part: &[u8],
    n: usize,
    tree: &[u8],
    classes: &[u8; 256],
    rows: &Rows,
    tables: &mut Tables,
) -> Option<Witness>
    requires { Prepared classes.now tree.now rows.now × GoodKey (key_body_at part.now n) }
    ensures { KeyTested (class_by classes.now) (file_table tree.now) (key_in (key_body_at part.now n)) result }
{
    let rest = record_at(part, n);
    let body = body_at_front(rest);
    test_key(tree, classes, rows, body, tables)
}

// Its line, where the tree breaks it.
fn pass_tested(out: &mut [u8], before: Put, start: usize, key: usize, found: Option<Witness>) -> Put
    requires { (before.at + 259 ≤ length out.old) × (start ≤ 12288) × (before.lines < 65536) }
    ensures { Puts out.old out.new start before.at before.lines (tested_lines key found) result.at result.lines 217 }
{
    match found {
        None => before,
        Some(w) => pass_broken(out, before, start, key, w),
    }
}

// All tables are made once, here, and lent to every key in turn.
pub fn put_broken_keys(
    out: &mut [u8],
    before: Put,
    start: usize,
    part: &[u8],
    keys: usize,
    tree: &[u8],
    classes: &[u8; 256],
) -> Put
    requires tree_bytes { TreeBytes classes.now tree.now × KeyBodies part.now keys × (keys ≤ 64) × (65536 ≤ length out.old) }
    requires start_bound { (start ≤ 12288) × (before.at ≤ 43008) × (before.lines ≤ 12288) }
    ensures { KeysTold (class_by classes.now) (file_table tree.now) part.now keys out.old out.new start before.at before.lines result.at result.lines }
{
    let mut rows = Rows::new();
    prepare(tree, classes, &mut rows);
    let mut tables = Tables::new();
    let mut put = before;
    for n in 0..keys {
        let found = judge_key(part, n, tree, classes, &rows, &mut tables);
        put = pass_tested(out, put, start, n, found);
    }
    put
}
