// Value-equal pairs below two nodes: the families of the nodes that a key path reaches from b are marked, then a mark is looked for along the nodes it
// reaches from a.
ghost use Rattle.std.specs.Prelude.{◌≡◌, [], ◌+◌, ◌*◌, ◌<◌, length, get_or};
ghost use Rattle.meaning.specs.Lists.{Each};
ghost use Rattle.meaning.specs.Keys.{EqualPair};
ghost use Rattle.tree_table.specs.Tells.{Tells};
ghost use Rattle.tree_pairs.specs.Marks.{Marked, Stamped};
ghost use Rattle.tree_pairs.specs.Reach.{Hangs, tree_of, classes_of, key_of};

use crate::memo::Memo;
use crate::reach::Reach;
use read_record::keys::count;
use read_record::limits::TREE_NODES;

// The mark of key path i and node b, of no other path and node: 0 stands for none.
fn stamp(i: usize, b: usize) -> u16
    requires { (i < 4) × (b < 4096) }
    ensures { result ≡ 4 * b + i + 1 }
{
    (4 * b + i + 1) as u16
}

// Marks the family of each node that key path i reaches from b.
fn mark(reach: &Reach, marks: &mut [u16; TREE_NODES], i: usize, b: usize)
    requires hanging { Hangs reach.now × (i < length (key_of reach.now).paths) × (b < (tree_of reach.now).size) }
    requires marked { Marked (tree_of reach.now) reach.now.rows.now.family (key_of reach.now).paths marks.old }
    ensures { Stamped (tree_of reach.now) reach.now.rows.now.family (key_of reach.now).paths i b marks.new }
{
    let own = stamp(i, b);
    let list = &reach.hung[i];
    let mut y = usize::from(list.first[b]);
    // Stays a `while`: because a list by links counts nothing.
    while y != 0 {
        marks[reach.rows.family_of(y)] = own;
        y = usize::from(list.next[y]);
    }
}

// Key path i reaches a node of a marked family from a.
fn meets(reach: &Reach, marks: &[u16; TREE_NODES], i: usize, a: usize, b: usize) -> bool
    requires hanging { Hangs reach.now × (i < length (key_of reach.now).paths) × (a < b) × (b < (tree_of reach.now).size) }
    requires stamped { Stamped (tree_of reach.now) reach.now.rows.now.family (key_of reach.now).paths i b marks.now }
    ensures { Tells (EqualPair (classes_of reach.now) (tree_of reach.now) a b (get_or (key_of reach.now).paths i [])) result }
{
    let wanted = stamp(i, b);
    let list = &reach.hung[i];
    let mut x = usize::from(list.first[a]);
    // Stays a `while`: because a list by links counts nothing.
    while x != 0 {
        if marks[reach.rows.family_of(x)] == wanted {
            return true;
        }
        x = usize::from(list.next[x]);
    }
    false
}

// Key path i has a value-equal pair below a and b.
fn agree(reach: &Reach, marks: &mut [u16; TREE_NODES], i: usize, a: usize, b: usize) -> bool
    requires hanging { Hangs reach.now × (i < length (key_of reach.now).paths) × (a < b) × (b < (tree_of reach.now).size) }
    requires marked { Marked (tree_of reach.now) reach.now.rows.now.family (key_of reach.now).paths marks.old }
    ensures { Tells (EqualPair (classes_of reach.now) (tree_of reach.now) a b (get_or (key_of reach.now).paths i [])) result
        × Marked (tree_of reach.now) reach.now.rows.now.family (key_of reach.now).paths marks.new }
{
    mark(reach, marks, i, b);
    meets(reach, &*marks, i, a, b)
}

// Each key path of the key has a value-equal pair below a and b. What else is remembered stays.
pub fn agree_all(reach: &Reach, memo: &mut Memo, a: usize, b: usize) -> bool
    requires hanging { Hangs reach.now × (a < b) × (b < (tree_of reach.now).size) }
    requires marked { Marked (tree_of reach.now) reach.now.rows.now.family (key_of reach.now).paths memo.old.marks }
    ensures { Tells (Each (EqualPair (classes_of reach.now) (tree_of reach.now) a b) (key_of reach.now).paths) result
        × Marked (tree_of reach.now) reach.now.rows.now.family (key_of reach.now).paths memo.new.marks
        × (memo.new.seen ≡ memo.old.seen) }
{
    for i in 0..count(reach.body) {
        if !agree(reach, &mut memo.marks, i, a, b) {
            return false;
        }
    }
    true
}
