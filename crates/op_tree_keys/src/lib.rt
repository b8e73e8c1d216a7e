// Whether an accepted tree breaks a key, and the first profile key that it breaks, with the first witness, over tables that serve all keys.
#![tactic(auto)]

ghost use Rattle.meaning.specs.Records.{key_in};
ghost use Rattle.tree_table.specs.FileTable.{file_table, class_by};
ghost use Rattle.tree_rows.specs.Prepared.{Prepared};
ghost use Rattle.tree_sorted.specs.GoodKey.{GoodKey};
ghost use Rattle.tree_witness.specs.Pairs.{FirstShown};
ghost use Rattle.op_tree_keys.specs.ProfileKeys.{KeyTested, key_body_at, KeyBodies, LowestBroken, KeyFound};

use op_answers::Witness;
use op_profile::profiles::body_at_front;
use read_walker::record_at;
use tree_pairs::reach::Reach;
use tree_rows::hung::Hung;
use tree_rows::rows::Rows;
use tree_search::search::broken_key;
use tree_search::tables::Tables;
use tree_witness::witness;

// The first witness, where the tree breaks the key.
pub fn test_key(
    tree: &[u8],
    classes: &[u8; 256],
    rows: &Rows,
    body: &[u8],
    tables: &mut Tables,
) -> Option<Witness>
    requires { Prepared classes.now tree.now rows.now × GoodKey body.now }
    ensures { KeyTested (class_by classes.now) (file_table tree.now) (key_in body.now) result }
{
    let found = broken_key(tree, classes, rows, body, tables)?;
    let reach = Reach {
        tree,
        classes,
        rows,
        body,
        hung: &tables.hung,
    };
    Some(witness(&reach, found.context, found.first, found.second))
}

// A key by its number, with the first context and targets against it.
#[derive(Clone, Copy, Debug, PartialEq, Eq)]
pub struct Lowest {
    pub key: usize,
    pub context: usize,
    pub first: usize,
    pub second: usize,
}

// "as record the lowest such key number", where the tree breaks a key. The part is the profile from its first key on, and the lists are those of the
// key that is answered.
pub fn first_broken(
    part: &[u8],
    keys: usize,
    tree: &[u8],
    classes: &[u8; 256],
    rows: &Rows,
    tables: &mut Tables,
) -> Option<Lowest>
    requires { Prepared classes.now tree.now rows.now × KeyBodies part.now keys }
    ensures { LowestBroken (class_by classes.now) (file_table tree.now) part.now keys tables.new.hung result }
{
    for n in 0..keys {
        let rest = record_at(part, n);
        let body = body_at_front(rest);
        if let Some(found) = broken_key(tree, classes, rows, body, tables) {
            return Some(Lowest {
                key: n,
                context: found.context,
                first: found.first,
                second: found.second,
            });
        }
    }
    None
}

// The first witness against that key.
pub fn witness_of(
    part: &[u8],
    lowest: Lowest,
    tree: &[u8],
    classes: &[u8; 256],
    rows: &Rows,
    hung: &[Hung; 4],
) -> Witness
    requires { KeyFound classes.now tree.now rows.now hung.now part.now lowest.key lowest.context lowest.first lowest.second }
    ensures { FirstShown (class_by classes.now) (file_table tree.now) (key_in (key_body_at part.now lowest.key)) result }
{
    let rest = record_at(part, lowest.key);
    let reach = Reach {
        tree,
        classes,
        rows,
        body: body_at_front(rest),
        hung,
    };
    witness(&reach, lowest.context, lowest.first, lowest.second)
}
