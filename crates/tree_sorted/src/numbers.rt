// Numbers of the nodes that a key path reaches: the same for two nodes of one family below two targets of one group. Linear, and without hashing:
// the chain of a family is walked in one go, and at each group stands the family that was met there last.
ghost use Rattle.std.specs.Prelude.{◌≡◌, ◌<◌, ◌≤◌, get_or, unwrap_or, IfSome};
ghost use Rattle.tree_table.specs.Links.{Nexts};
ghost use Rattle.tree_rows.specs.Chain.{by_family};
ghost use Rattle.tree_rows.specs.Indexed.{Ready, table_in};
ghost use Rattle.tree_sorted.specs.Numbers.{ByLeast, GroupIs, FamilyNumbered, Unstamped, NumberedTo};
ghost use Rattle.tree_sorted.specs.Sorted.{Stays};

use crate::sorted::Sorted;
use tree_rows::hung::Hung;
use tree_rows::indexed::Indexed;
use tree_rows::rows::Rows;
use tree_table::fields::size;

// The group of the node that a key path reaches x from.
fn group_above(list: &Hung, sorted: &Sorted, count: usize, x: usize) -> Option<usize>
    requires { (count ≤ 4096) × (x < 4096) }
    ensures { GroupIs count list.now.from sorted.now.group x (unwrap_or result count) × IfSome result (λ g. g < count) }
{
    let a = usize::from(list.from[x]);
    if count <= a {
        return None;
    }
    let group = usize::from(sorted.group[a]);
    if count <= group {
        return None;
    }
    Some(group)
}

// The nodes of family c. Says how many of them share the number of an earlier one.
fn number_family(rows: &Rows, list: &Hung, count: usize, c: usize, sorted: &mut Sorted) -> usize
    requires nexts { Nexts (by_family count rows.now.family) rows.now.same × ByLeast count rows.now.family × (get_or rows.now.family c 0 ≡ c) }
    requires c_bound { (0 < c) × (c < count) × (count ≤ 4096) × Unstamped count sorted.old.number sorted.old.stamp c }
    ensures { FamilyNumbered count rows.now.family list.now.from sorted.old.group c sorted.old.number sorted.new.number sorted.new.stamp
        × Stays sorted.old sorted.new × (result ≤ 4096) }
{
    let mut shared = 0;
    let mut x = c;
    // Stays a `while`: because a list by links counts nothing.
    while x != 0 {
        if let Some(g) = group_above(list, &*sorted, count, x) {
            if usize::from(sorted.stamp[g]) == c {
                sorted.number[x] = sorted.lead[g];
                shared += 1;
            } else {
                sorted.stamp[g] = c as u16;
                sorted.lead[g] = x as u16;
                sorted.number[x] = x as u16;
            }
        }
        x = rows.same_family(x);
    }
    shared
}

// Each node its own number, and no family met anywhere.
fn clear_numbers(count: usize, sorted: &mut Sorted)
    requires { count ≤ 4096 }
    ensures { Unstamped count sorted.new.number sorted.new.stamp 1 × Stays sorted.old sorted.new }
{
    for v in 0..count {
        sorted.number[v] = v as u16;
        sorted.stamp[v] = 0;
    }
}

// The nodes of every family. Says how many share the number of an earlier one.
pub fn number_nodes(indexed: &Indexed, list: &Hung, sorted: &mut Sorted) -> usize
    requires { Ready indexed.now }
    ensures { NumberedTo (table_in indexed.now).size indexed.now.rows.now.family list.now.from sorted.old.group sorted.new.number sorted.new.stamp (table_in indexed.now).size
        × Stays sorted.old sorted.new × (result ≤ 16777216) }
{
    let count = size(indexed.tree);
    clear_numbers(count, sorted);
    let mut shared = 0;
    for c in 1..count {
        if indexed.rows.family_of(c) == c {
            shared += number_family(indexed.rows, list, count, c, sorted);
        }
    }
    shared
}
