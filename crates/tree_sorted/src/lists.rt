// To each node the list of the nodes that a key path reaches from it: a key path is simple, so a node is reached from at most one node, found by
// climbing as many labels as the path has and asking `path_words::member` whether they form a word of it.
ghost use Rattle.std.specs.Prelude.{◌≡◌, ◌<◌, ◌≤◌, T, length, unwrap_or};
ghost use Rattle.meaning.specs.Paths.{simple};
ghost use Rattle.tree_table.specs.FileTable.{file_table, TreeBytes};
ghost use Rattle.meaning.specs.Records.{key_in};
ghost use Rattle.tree_rows.specs.Hung.{HungIn, HungAll};
ghost use Rattle.tree_sorted.specs.Origin.{OriginIs};
ghost use Rattle.tree_sorted.specs.Hung.{HungFrom};
ghost use Rattle.tree_sorted.specs.Stores.{OriginsTo, OriginsFound};
ghost use Rattle.tree_sorted.specs.GoodKey.{GoodKey};

use path_words::member;
use read_record::keys::{count, path};
use read_record::limits::TREE_NODES;
use tree_rows::hung::Hung;
use tree_table::fields::{label, parent, size};

// "A path has at most 8 symbols".
const LABELS: usize = 8;

// The node from which the path leads down to x. The last label is tested first: most nodes have another.
fn origin(tree: &[u8], classes: &[u8; 256], x: usize, path: &[u8]) -> Option<usize>
    requires tree_bytes { TreeBytes classes.now tree.now × (x < (file_table tree.now).size) }
    requires t { T (simple path.now) × (length path.now ≤ 8) }
    ensures { OriginIs (file_table tree.now) path.now x (unwrap_or result 4096) × (unwrap_or result 4096 ≤ 4096) }
{
    let labels = path.len();
    if labels == 0 {
        return Some(x);
    }
    if label(tree, x) != usize::from(path[labels - 1]) {
        return None;
    }
    let mut run = [0u8; LABELS];
    let mut node = x;
    for i in (LABELS - labels..LABELS).rev() {
        if node == 0 {
            return None;
        }
        run[i] = label(tree, node) as u8;
        node = parent(tree, node);
    }
    if member(&run[LABELS - labels..], path) {
        return Some(node);
    }
    None
}

// The node above each node by a key path, and no lists yet.
fn find_origins(tree: &[u8], classes: &[u8; 256], path: &[u8], list: &mut Hung)
    requires { TreeBytes classes.now tree.now × T (simple path.now) × (length path.now ≤ 8) }
    ensures { OriginsTo (file_table tree.now) path.now list.new.from list.new.first (file_table tree.now).size }
{
    for x in 0..size(tree) {
        let above = origin(tree, classes, x, path).unwrap_or(TREE_NODES);
        list.from[x] = above as u16;
        list.first[x] = 0;
    }
}

// Each node in front of the list of the node above it, from the back: the lists ascend. Stays beside `tree_rows::hang::hang_under`: because that one
// wants an owner of each node, and here most have none.
fn link_up(count: usize, list: &mut Hung)
    requires count_nonzero { (0 < count) × (count ≤ 4096) }
    requires origins_found { OriginsFound count list.old.from list.old.first }
    ensures { HungFrom count list.old.from list.new.first list.new.next 1 × (list.new.from ≡ list.old.from) }
{
    for x in (1..count).rev() {
        let above = usize::from(list.from[x]);
        if above < TREE_NODES {
            list.next[x] = list.first[above];
            list.first[above] = x as u16;
        }
    }
}

// The lists of a key path.
fn hang(tree: &[u8], classes: &[u8; 256], path: &[u8], list: &mut Hung)
    requires { TreeBytes classes.now tree.now × T (simple path.now) × (length path.now ≤ 8) }
    ensures { HungIn (file_table tree.now) path.now list.new }
{
    find_origins(tree, classes, path, list);
    link_up(size(tree), list);
}

// The lists of every key path of a key.
pub fn hang_all(tree: &[u8], classes: &[u8; 256], body: &[u8], hung: &mut [Hung; 4])
    requires { TreeBytes classes.now tree.now × GoodKey body.now }
    ensures { HungAll (file_table tree.now) (key_in body.now).paths hung.new }
{
    for i in 0..count(body) {
        hang(tree, classes, path(body, i), &mut hung[i]);
    }
}
