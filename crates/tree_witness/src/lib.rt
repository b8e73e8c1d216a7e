// The first witness against a key: the first context and targets are known, and each key path has its first value-equal pair below them. The nodes
// that a key path reaches from a node stand in a list that ascends, so the first of a family is the least.
#![tactic(auto)]

ghost use Rattle.std.specs.Prelude.{◌≡◌, [], ℕ, ◌<◌, ◌≤◌, length, get_or, MatchOption};
ghost use Rattle.meaning.specs.Lists.{Each};
ghost use Rattle.meaning.specs.Keys.{EqualPair};
ghost use Rattle.theory_trees.specs.Witness.{FirstPair, FirstTargets};
ghost use Rattle.tree_pairs.specs.Reach.{Hangs, tree_of, classes_of, key_of};
ghost use Rattle.tree_witness.specs.Firsts.{Firsts};
ghost use Rattle.tree_witness.specs.Pairs.{FirstShown};

use op_answers::Witness;
use read_record::keys::count;
use read_record::limits::TREE_NODES;
use tree_pairs::reach::Reach;

// "one value-equal pair": x lies below the smaller target, y below the larger.
#[derive(Clone, Copy, Debug, PartialEq, Eq)]
struct Pair {
    x: usize,
    y: usize,
}

// What stands in a witness for a key path that the key does not have.
const NO_PAIR: Pair = Pair { x: 0, y: 0 };

// At each family the first node of it that key path i reaches from b; 0 where there is none.
fn put_firsts(reach: &Reach, firsts: &mut [u16; TREE_NODES], i: usize, b: usize)
    requires hanging { Hangs reach.now × (i < length (key_of reach.now).paths) × (b < (tree_of reach.now).size) }
    requires bare { (k : ℕ) → get_or firsts.old k 0 ≡ 0 }
    ensures { Firsts (tree_of reach.now) reach.now.rows.now.family (get_or (key_of reach.now).paths i []) b firsts.new }
{
    let list = &reach.hung[i];
    let mut y = usize::from(list.first[b]);
    // Stays a `while`: because a list by links counts nothing.
    while y != 0 {
        let family = reach.rows.family_of(y);
        let first = firsts[family];
        if first == 0 {
            firsts[family] = y as u16;
        }
        y = usize::from(list.next[y]);
    }
}

// The first node that key path i reaches from a, of a family that it reaches from b too, with the first node of that family below b.
fn first_pair(
    reach: &Reach,
    firsts: &[u16; TREE_NODES],
    i: usize,
    a: usize,
    b: usize,
) -> Option<Pair>
    requires hanging { Hangs reach.now × (i < length (key_of reach.now).paths) × (a < b) × (b < (tree_of reach.now).size) }
    requires firsts { Firsts (tree_of reach.now) reach.now.rows.now.family (get_or (key_of reach.now).paths i []) b firsts.now × EqualPair (classes_of reach.now) (tree_of reach.now) a b (get_or (key_of reach.now).paths i []) }
    ensures { MatchOption result ⊥ (λ p. FirstPair (classes_of reach.now) (tree_of reach.now) a b (get_or (key_of reach.now).paths i []) p.x p.y) }
{
    let list = &reach.hung[i];
    let mut x = usize::from(list.first[a]);
    // Stays a `while`: because a list by links counts nothing.
    while x != 0 {
        let y = usize::from(firsts[reach.rows.family_of(x)]);
        if y != 0 {
            return Some(Pair { x, y });
        }
        x = usize::from(list.next[x]);
    }
    None
}

// The first pair of key path i, where the key has so many.
fn pair_at(reach: &Reach, i: usize, a: usize, b: usize) -> Option<Pair>
    requires hanging { Hangs reach.now × (a < b) × (b < (tree_of reach.now).size) }
    requires each { Each (EqualPair (classes_of reach.now) (tree_of reach.now) a b) (key_of reach.now).paths }
    ensures { MatchOption result (length (key_of reach.now).paths ≤ i)
        (λ p. (i < length (key_of reach.now).paths) × FirstPair (classes_of reach.now) (tree_of reach.now) a b (get_or (key_of reach.now).paths i []) p.x p.y) }
{
    if count(reach.body) <= i {
        return None;
    }
    let mut firsts = [0u16; TREE_NODES];
    put_firsts(reach, &mut firsts, i, b);
    first_pair(reach, &firsts, i, a, b)
}

// The first witness, from the first context and targets.
pub fn witness(reach: &Reach, context: usize, first: usize, second: usize) -> Witness
    requires { Hangs reach.now × FirstTargets (classes_of reach.now) (tree_of reach.now) (key_of reach.now) context first second }
    ensures { FirstShown (classes_of reach.now) (tree_of reach.now) (key_of reach.now) result }
{
    let one = pair_at(reach, 0, first, second).unwrap_or(NO_PAIR);
    let two = pair_at(reach, 1, first, second).unwrap_or(NO_PAIR);
    let three = pair_at(reach, 2, first, second).unwrap_or(NO_PAIR);
    let four = pair_at(reach, 3, first, second).unwrap_or(NO_PAIR);
    Witness {
        context,
        first,
        second,
        paths: count(reach.body),
        x0: one.x,
        y0: one.y,
        x1: two.x,
        y1: two.y,
        x2: three.x,
        y2: three.y,
        x3: four.x,
        y3: four.y,
    }
}
