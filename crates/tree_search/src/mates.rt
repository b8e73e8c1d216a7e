// The least target that agrees with a target and comes behind it.
ghost use Rattle.std.specs.Prelude.{◌≡◌, ◌+◌, ◌<◌, ◌≤◌, get_or, unwrap_or, IfSome};
ghost use Rattle.tree_pairs.specs.Marks.{Marked};
ghost use Rattle.tree_pairs.specs.Reach.{tree_of, classes_of, key_of};
ghost use Rattle.tree_search.specs.Best.{MateIs};
ghost use Rattle.tree_search.specs.Mates.{MateTest, LeastSo, Looked, Seen, Lower};
ghost use Rattle.tree_search.specs.Search.{Searches, from_of};

use crate::targets::Targets;
use read_record::limits::TREE_NODES;
use tree_pairs::memo::Memo;
use tree_pairs::pairs::agree_all;

// A target, and the bound that its mates have to be below: the least of them so far, or 4,096.
#[derive(Clone, Copy, Debug, PartialEq, Eq)]
pub struct Mated {
    pub a: usize,
    pub least: usize,
}

// Node b comes behind the target and before its least mate so far, both have one highest context, and they agree.
fn is_mate(targets: &Targets, memo: &mut Memo, mated: Mated, b: usize) -> bool
    requires searchable { Searches targets.now × (mated.a < (tree_of targets.now.reach).size) × (get_or targets.now.sorted.now.top mated.a 0 < 4096) × (b < mated.least → b < (tree_of targets.now.reach).size) }
    requires marked { Marked (tree_of targets.now.reach) targets.now.reach.rows.now.family (key_of targets.now.reach).paths memo.old.marks }
    ensures { MateTest (classes_of targets.now.reach) (tree_of targets.now.reach) (key_of targets.now.reach) targets.now.sorted.now.top mated.a b mated.least result
        × Marked (tree_of targets.now.reach) targets.now.reach.rows.now.family (key_of targets.now.reach).paths memo.new.marks
        × (memo.new.seen ≡ memo.old.seen) }
{
    if b <= mated.a {
        return false;
    }
    if mated.least <= b {
        return false;
    }
    if targets.sorted.top[mated.a] != targets.sorted.top[b] {
        return false;
    }
    agree_all(&targets.reach, memo, mated.a, b)
}

// The least mate of the target among those that have a node of the number of x, where it is below the least so far. A number that was looked at for
// a holds a and one more, since 0 stands for none.
fn mate_from(targets: &Targets, memo: &mut Memo, mated: Mated, x: usize) -> usize
    requires searchable { Searches targets.now × (mated.a < (tree_of targets.now.reach).size) × (x < (tree_of targets.now.reach).size) × (get_or targets.now.sorted.now.top mated.a 0 < 4096) }
    requires marked { Marked (tree_of targets.now.reach) targets.now.reach.rows.now.family (key_of targets.now.reach).paths memo.old.marks
        × LeastSo (classes_of targets.now.reach) (tree_of targets.now.reach) (key_of targets.now.reach) targets.now.sorted.now.top mated.a mated.least
        × Seen (classes_of targets.now.reach) (tree_of targets.now.reach) (key_of targets.now.reach) (from_of targets.now) targets.now.sorted.now.number mated.a mated.least memo.old.seen }
    ensures { Marked (tree_of targets.now.reach) targets.now.reach.rows.now.family (key_of targets.now.reach).paths memo.new.marks
        × LeastSo (classes_of targets.now.reach) (tree_of targets.now.reach) (key_of targets.now.reach) targets.now.sorted.now.top mated.a result
        × Seen (classes_of targets.now.reach) (tree_of targets.now.reach) (key_of targets.now.reach) (from_of targets.now) targets.now.sorted.now.number mated.a result memo.new.seen
        × (result ≤ mated.least)
        × Looked (classes_of targets.now.reach) (tree_of targets.now.reach) (key_of targets.now.reach) (from_of targets.now) targets.now.sorted.now.number mated.a result (get_or targets.now.sorted.now.number x 0) }
{
    let number = usize::from(targets.sorted.number[x]);
    if usize::from(memo.seen[number]) == mated.a + 1 {
        return mated.least;
    }
    let list = &targets.reach.hung[targets.pivot];
    let mut best = mated.least;
    let mut y = usize::from(targets.sorted.lead[number]);
    // Stays a `while`: because a list by links counts nothing.
    while y != 0 {
        let b = usize::from(list.from[y]);
        let so_far = Mated {
            a: mated.a,
            least: best,
        };
        if is_mate(targets, memo, so_far, b) {
            best = b;
        }
        y = usize::from(targets.sorted.chain[y]);
    }
    memo.seen[number] = (mated.a + 1) as u16;
    best
}

// The least mate of a.
pub fn mate_of(targets: &Targets, memo: &mut Memo, a: usize) -> Option<usize>
    requires searchable { Searches targets.now × (a < (tree_of targets.now.reach).size) × (get_or targets.now.sorted.now.top a 0 < 4096) }
    requires marked { Marked (tree_of targets.now.reach) targets.now.reach.rows.now.family (key_of targets.now.reach).paths memo.old.marks
        × Lower (tree_of targets.now.reach) memo.old.seen a }
    ensures { MateIs (classes_of targets.now.reach) (tree_of targets.now.reach) (key_of targets.now.reach) targets.now.sorted.now.top a (unwrap_or result 4096)
        × IfSome result (λ b. b < 4096)
        × Marked (tree_of targets.now.reach) targets.now.reach.rows.now.family (key_of targets.now.reach).paths memo.new.marks
        × Lower (tree_of targets.now.reach) memo.new.seen (a + 1) }
{
    let list = &targets.reach.hung[targets.pivot];
    let mut least = TREE_NODES;
    let mut x = usize::from(list.first[a]);
    // Stays a `while`: because a list by links counts nothing.
    while x != 0 {
        least = mate_from(targets, memo, Mated { a, least }, x);
        x = usize::from(list.next[x]);
    }
    if least < TREE_NODES {
        return Some(least);
    }
    None
}
