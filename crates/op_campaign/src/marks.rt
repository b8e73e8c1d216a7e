// Of each key of an accepted profile whether an accepted tree breaks it, over tables that serve all keys.
ghost use Rattle.std.specs.Prelude.{◌≤◌};
ghost use Rattle.tree_table.specs.FileTable.{file_table, class_by};
ghost use Rattle.tree_rows.specs.Prepared.{Prepared};
ghost use Rattle.op_tree_keys.specs.ProfileKeys.{KeyBodies};
ghost use Rattle.op_campaign.specs.Marks.{Marked};

use op_profile::profiles::body_at_front;
use op_tally::PROFILE_KEYS;
use read_walker::record_at;
use tree_rows::rows::Rows;
use tree_search::search::broken_key;
use tree_search::tables::Tables;

// The part is the profile from its first key on.
pub fn mark_keys(
    part: &[u8],
    keys: usize,
    tree: &[u8],
    classes: &[u8; 256],
    rows: &Rows,
    tables: &mut Tables,
) -> [bool; PROFILE_KEYS]
    requires { Prepared classes.now tree.now rows.now × KeyBodies part.now keys × (keys ≤ 64) }
    ensures { Marked (class_by classes.now) (file_table tree.now) part.now keys result }
{
    let mut breaks = [false; PROFILE_KEYS];
    for n in 0..keys {
        let rest = record_at(part, n);
        let body = body_at_front(rest);
        breaks[n] = broken_key(tree, classes, rows, body, tables).is_some();
    }
    breaks
}
