// The highest context of each node: "for each node q reached from the root by C and any two different nodes a, b reached from q by T". Numbers are
// handed down the whole tree in place, symbol by symbol, and each node keeps the least. Contexts are what the root alone reaches, so they are found
// in the same way.
#![tactic(auto)]

ghost use Rattle.std.specs.Prelude.{◌≡◌, [], ◌∷◌, ◌<◌, unwrap_or};
ghost use Rattle.tree_rows.specs.Indexed.{Ready, table_in};
ghost use Rattle.tree_contexts.specs.Tabled.{Tabled};
ghost use Rattle.tree_contexts.specs.Least.{LeastAt, Least};
ghost use Rattle.tree_contexts.specs.Tops.{Tops};
ghost use Rattle.tree_contexts.specs.Rooted.{Rooted, Own, Owned};

use read_record::limits::TREE_NODES;
use tree_rows::indexed::Indexed;
use tree_table::fields::size;

// "Symbol 0 in a path is the any-path".
const ANY_PATH: usize = 0;
// No number, in a table: "tree 4,096 nodes".
const NONE: u16 = 4096;

// What a label hands down to v: its parent's number, as the table has it.
fn from_parent(indexed: &Indexed, symbol: usize, table: &[u16; TREE_NODES], v: usize) -> Option<u16>
    requires { Ready indexed.now × (v < (table_in indexed.now).size) × (0 < symbol) }
    ensures { LeastAt (table_in indexed.now) (symbol ∷ []) table.now v (unwrap_or result 4096) }
{
    if v == 0 || indexed.rows.label_of(v) != symbol {
        return None;
    }
    Some(table[indexed.rows.parent_of(v)])
}

// The numbers handed down by a label, from the back: parents still have theirs.
fn by_label(indexed: &Indexed, symbol: usize, table: &mut [u16; TREE_NODES])
    requires { Ready indexed.now × (0 < symbol) }
    ensures { Least (table_in indexed.now) (symbol ∷ []) table.old table.new }
{
    for v in (0..size(indexed.tree)).rev() {
        table[v] = from_parent(indexed, symbol, table, v).unwrap_or(NONE);
    }
}

// The numbers handed down by the any-path, from the front: to each node its own number, or what came down to its parent where that is less.
fn by_any_path(indexed: &Indexed, table: &mut [u16; TREE_NODES])
    requires { Ready indexed.now }
    ensures { Least (table_in indexed.now) (0 ∷ []) table.old table.new }
{
    for v in 1..size(indexed.tree) {
        let above = indexed.rows.parent_of(v);
        table[v] = table[above].min(table[v]);
    }
}

fn by_symbol(indexed: &Indexed, symbol: usize, table: &mut [u16; TREE_NODES])
    requires { Ready indexed.now }
    ensures { Least (table_in indexed.now) (symbol ∷ []) table.old table.new }
{
    if symbol == ANY_PATH {
        by_any_path(indexed, table);
    } else {
        by_label(indexed, symbol, table);
    }
}

// The numbers handed down by a whole path.
fn hand_down(indexed: &Indexed, path: &[u8], table: &mut [u16; TREE_NODES])
    requires { Ready indexed.now }
    ensures { Least (table_in indexed.now) path.now table.old table.new }
{
    for &symbol in path {
        by_symbol(indexed, usize::from(symbol), table);
    }
}

// The root alone has a number.
fn root_alone(indexed: &Indexed, table: &mut [u16; TREE_NODES])
    requires { Ready indexed.now }
    ensures { Rooted table.new (table_in indexed.now).size }
{
    table[0] = 0;
    for v in 1..size(indexed.tree) {
        table[v] = NONE;
    }
}

fn own_number(v: usize, arrived: u16) -> u16
    requires { v < 4096 }
    ensures { Own v arrived result }
{
    if arrived < NONE {
        return v as u16;
    }
    NONE
}

// "each node q reached from the root by C": where the root's number arrived, the node's own.
fn own_numbers(indexed: &Indexed, table: &mut [u16; TREE_NODES])
    requires { Ready indexed.now }
    ensures { Tabled (Owned table.old) table.new (table_in indexed.now).size }
{
    for v in 0..size(indexed.tree) {
        table[v] = own_number(v, table[v]);
    }
}

// The highest context of each node, 4,096 where it has none. Two nodes have a common context exactly when they have the same highest one.
pub fn highest_contexts(
    indexed: &Indexed,
    context: &[u8],
    target: &[u8],
    table: &mut [u16; TREE_NODES],
)
    requires { Ready indexed.now }
    ensures { Tops (table_in indexed.now) context.now target.now table.new }
{
    root_alone(indexed, table);
    hand_down(indexed, context, table);
    own_numbers(indexed, table);
    hand_down(indexed, target, table);
}
