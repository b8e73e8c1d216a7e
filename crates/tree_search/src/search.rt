// The first context and targets that break a key.
ghost use Rattle.std.specs.Prelude.{◌≡◌, ◌≤◌};
ghost use Rattle.meaning.specs.Records.{key_in};
ghost use Rattle.tree_table.specs.FileTable.{file_table, class_by};
ghost use Rattle.tree_rows.specs.Hung.{HungAll};
ghost use Rattle.tree_rows.specs.Indexed.{Ready};
ghost use Rattle.tree_rows.specs.Prepared.{Prepared};
ghost use Rattle.tree_sorted.specs.GoodKey.{GoodKey};
ghost use Rattle.tree_pairs.specs.Marks.{Marked};
ghost use Rattle.tree_search.specs.Best.{FirstBy};
ghost use Rattle.tree_search.specs.Mates.{Lower};
ghost use Rattle.tree_pairs.specs.Reach.{tree_of, classes_of, key_of};
ghost use Rattle.tree_search.specs.Search.{Searches};
ghost use Rattle.tree_search.specs.Start.{SpreadTo, ZeroTo, Searchable};

use crate::mates::mate_of;
use crate::tables::Tables;
use crate::targets::Targets;
use read_record::keys::{context, target};
use read_record::limits::TREE_NODES;
use tree_contexts::highest_contexts;
use tree_pairs::memo::Memo;
use tree_pairs::reach::Reach;
use tree_rows::hung::Hung;
use tree_rows::indexed::Indexed;
use tree_rows::rows::Rows;
use tree_sorted::groups::sort_targets;
use tree_sorted::lists::hang_all;
use tree_sorted::sorted::Sorted;
use tree_table::fields::size;

// A witness against a key by its numbers: the context, and two different targets, the smaller first.
#[derive(Clone, Copy, Debug, PartialEq, Eq)]
pub struct BrokenAt {
    pub context: usize,
    pub first: usize,
    pub second: usize,
}

// The highest context of each node is its first group.
fn spread(count: usize, sorted: &mut Sorted)
    requires { count ≤ 4096 }
    ensures { SpreadTo sorted.old.top sorted.new.group count × (sorted.new.top ≡ sorted.old.top) }
{
    for v in 0..count {
        sorted.group[v] = sorted.top[v];
    }
}

// Nothing is remembered; only as much is cleared as there are nodes.
fn forget(count: usize, memo: &mut Memo)
    requires { count ≤ 4096 }
    ensures { ZeroTo memo.new count }
{
    for v in 0..count {
        memo.seen[v] = 0;
        memo.marks[v] = 0;
    }
}

// All that the search takes; answers with the pivot.
fn sort_key(indexed: &Indexed, body: &[u8], hung: &mut [Hung; 4], sorted: &mut Sorted) -> usize
    requires { Ready indexed.now × GoodKey body.now }
    ensures { Searchable indexed.now.classes.now indexed.now.tree.now indexed.now.rows.now hung.new body.now sorted.new result }
{
    highest_contexts(indexed, context(body), target(body), &mut sorted.top);
    spread(size(indexed.tree), sorted);
    hang_all(indexed.tree, indexed.classes, body, hung);
    sort_targets(indexed, body, &*hung, sorted)
}

// The targets in their order; one whose highest context is no better than the best so far is passed over.
fn first_pair(targets: &Targets, memo: &mut Memo) -> Option<BrokenAt>
    requires searchable { Searches targets.now }
    requires marked { Marked (tree_of targets.now.reach) targets.now.reach.rows.now.family (key_of targets.now.reach).paths memo.old.marks
        × Lower (tree_of targets.now.reach) memo.old.seen 0 }
    ensures { FirstBy (classes_of targets.now.reach) (tree_of targets.now.reach) (key_of targets.now.reach) result }
{
    let mut best = TREE_NODES;
    let mut found = None;
    for a in 0..size(targets.reach.tree) {
        let own = usize::from(targets.sorted.top[a]);
        if own < best {
            if let Some(b) = mate_of(targets, memo, a) {
                best = own;
                found = Some(BrokenAt {
                    context: own,
                    first: a,
                    second: b,
                });
            }
        }
    }
    found
}

// The first context and targets by which the tree breaks the key. The rows serve all keys; the tables are lent, and their lists belong to this key
// when the answer is given.
pub fn broken_key(
    tree: &[u8],
    classes: &[u8; 256],
    rows: &Rows,
    body: &[u8],
    tables: &mut Tables,
) -> Option<BrokenAt>
    requires { Prepared classes.now tree.now rows.now × GoodKey body.now }
    ensures { FirstBy (class_by classes.now) (file_table tree.now) (key_in body.now) result
        × HungAll (file_table tree.now) (key_in body.now).paths tables.new.hung }
{
    let indexed = Indexed {
        tree,
        classes,
        rows,
    };
    let pivot = sort_key(&indexed, body, &mut tables.hung, &mut tables.sorted);
    forget(size(tree), &mut tables.memo);
    let reach = Reach {
        tree,
        classes,
        rows,
        body,
        hung: &tables.hung,
    };
    let targets = Targets {
        reach,
        sorted: &tables.sorted,
        pivot,
    };
    first_pair(&targets, &mut tables.memo)
}
