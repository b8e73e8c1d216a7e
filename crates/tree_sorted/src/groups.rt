// Groups of targets: two targets that agree stand in one group, so that the search compares few. Groups only have to be complete, so any key path
// may refine them that reaches at most one node from each target, and any may be the pivot that the search goes along.
ghost use Rattle.std.specs.Prelude.{◌≡◌, ℕ, ◌<◌, ◌≤◌, length, get_or};
ghost use Rattle.meaning.specs.Records.{key_in};
ghost use Rattle.tree_table.specs.Links.{Linked};
ghost use Rattle.tree_rows.specs.Chain.{by_family};
ghost use Rattle.tree_rows.specs.Hung.{HungAll};
ghost use Rattle.tree_rows.specs.Indexed.{Ready, table_in, classes_in};
ghost use Rattle.tree_sorted.specs.GoodKey.{GoodKey};
ghost use Rattle.tree_sorted.specs.Hung.{HungFrom};
ghost use Rattle.tree_sorted.specs.Groups.{Grouped};
ghost use Rattle.tree_sorted.specs.Adopting.{Surely, Several, SingleTo, NumbersStay, AdoptedTo};
ghost use Rattle.tree_sorted.specs.Chains.{TopsStay, ChainStays, ClearTo, SortedBy};

use crate::numbers::number_nodes;
use crate::sorted::Sorted;
use read_record::keys::count;
use tree_rows::hang::hang_under;
use tree_rows::hung::Hung;
use tree_rows::indexed::Indexed;
use tree_table::fields::size;

// No group, in a row: more than there are nodes.
const NO_GROUP: u16 = 4096;

// A key path reaches several nodes from a.
fn is_several(list: &Hung, count: usize, a: usize) -> bool
    requires { (count ≤ 4096) × (a < count) × HungFrom count list.now.from list.now.first list.now.next 1 }
    ensures { Several count list.now.from list.now.first a result }
{
    let x = usize::from(list.first[a]);
    x != 0 && list.next[x] != 0
}

// No target has two nodes of a key path.
fn is_single(list: &Hung, sorted: &Sorted, count: usize) -> bool
    requires { (count ≤ 4096) × HungFrom count list.now.from list.now.first list.now.next 1 }
    ensures { Surely (SingleTo count list.now.from sorted.now.group list.now.first count) result }
{
    for a in 0..count {
        if usize::from(sorted.group[a]) < count && is_several(list, count, a) {
            return false;
        }
    }
    true
}

// Each target into the group that its one node's number says.
fn adopt(list: &Hung, count: usize, sorted: &mut Sorted)
    requires count_bound { (count ≤ 4096) × HungFrom count list.now.from list.now.first list.now.next 1 }
    requires single_to { SingleTo count list.now.from sorted.old.group list.now.first count }
    ensures { AdoptedTo count list.now.from sorted.old.group sorted.old.number sorted.new.group count × NumbersStay sorted.old sorted.new }
{
    for a in 0..count {
        if usize::from(sorted.group[a]) < count {
            let x = usize::from(list.first[a]);
            if x == 0 {
                sorted.group[a] = NO_GROUP;
            } else {
                sorted.group[a] = sorted.number[x];
            }
        }
    }
}

// Key path i refines the groups where it reaches at most one node from each target; else it says how many of its nodes share a number.
fn refine(
    indexed: &Indexed,
    body: &[u8],
    hung: &[Hung; 4],
    i: usize,
    sorted: &mut Sorted,
) -> Option<usize>
    requires prepared { Ready indexed.now × GoodKey body.now × HungAll (table_in indexed.now) (key_in body.now).paths hung.now }
    requires i_in_bounds { (i < length (key_in body.now).paths) × Grouped (classes_in indexed.now) (table_in indexed.now) (key_in body.now) sorted.old.group }
    ensures { Grouped (classes_in indexed.now) (table_in indexed.now) (key_in body.now) sorted.new.group × TopsStay sorted.old sorted.new }
{
    let list = &hung[i];
    let shared = number_nodes(indexed, list, sorted);
    let nodes = size(indexed.tree);
    if is_single(list, &*sorted, nodes) {
        adopt(list, nodes, sorted);
        return None;
    }
    Some(shared)
}

// The key path that the search goes along: the first where no other reaches several nodes from a target, else the one whose nodes share the fewest
// numbers. The others refine the groups where they can.
fn choose_pivot(indexed: &Indexed, body: &[u8], hung: &[Hung; 4], sorted: &mut Sorted) -> usize
    requires prepared { Ready indexed.now × GoodKey body.now × HungAll (table_in indexed.now) (key_in body.now).paths hung.now }
    requires grouped { Grouped (classes_in indexed.now) (table_in indexed.now) (key_in body.now) sorted.old.group }
    ensures { (result < length (key_in body.now).paths) × Grouped (classes_in indexed.now) (table_in indexed.now) (key_in body.now) sorted.new.group × TopsStay sorted.old sorted.new }
{
    let mut pivot = 0;
    let mut fewest = usize::MAX;
    for i in 1..count(body) {
        if let Some(shared) = refine(indexed, body, hung, i, sorted) {
            if shared < fewest {
                pivot = i;
                fewest = shared;
            }
        }
    }
    if pivot == 0 {
        return 0;
    }
    match refine(indexed, body, hung, 0, sorted) {
        Some(shared) if shared < fewest => 0,
        _ => pivot,
    }
}

// No number has a node yet.
fn clear_leads(nodes: usize, sorted: &mut Sorted)
    requires { nodes ≤ 4096 }
    ensures { ClearTo sorted.new.lead nodes × ChainStays sorted.old sorted.new }
{
    for v in 0..nodes {
        sorted.lead[v] = 0;
    }
}

// To each number its nodes, ascending.
fn chain_numbers(nodes: usize, sorted: &mut Sorted)
    requires { (0 < nodes) × (nodes ≤ 4096) × ((x : ℕ) → x < nodes → get_or sorted.old.number x 0 ≤ x) }
    ensures { Linked (by_family nodes sorted.old.number) sorted.new.lead sorted.new.chain × ChainStays sorted.old sorted.new }
{
    clear_leads(nodes, sorted);
    hang_under(&sorted.number, nodes, &mut sorted.lead, &mut sorted.chain);
}

// The groups as far as they can be refined, the pivot, its nodes numbered, and the nodes of each number chained.
pub fn sort_targets(indexed: &Indexed, body: &[u8], hung: &[Hung; 4], sorted: &mut Sorted) -> usize
    requires prepared { Ready indexed.now × GoodKey body.now × HungAll (table_in indexed.now) (key_in body.now).paths hung.now }
    requires grouped { Grouped (classes_in indexed.now) (table_in indexed.now) (key_in body.now) sorted.old.group }
    ensures { SortedBy (classes_in indexed.now) (table_in indexed.now) (key_in body.now) indexed.now.rows.now.family sorted.new result × TopsStay sorted.old sorted.new }
{
    let pivot = choose_pivot(indexed, body, hung, sorted);
    number_nodes(indexed, &hung[pivot], sorted);
    chain_numbers(size(indexed.tree), sorted);
    pivot
}
