// Lists by owner: the first of its nodes at each owner, and to each node the next one of the same owner.
ghost use Rattle.std.specs.Prelude.{◌≡◌, ℕ, ◌<◌, ◌≤◌, get_or};
ghost use Rattle.tree_table.specs.Links.{Linked};
ghost use Rattle.tree_rows.specs.Chain.{by_family};

use read_record::limits::TREE_NODES;

// Every node but the root goes under its owner, from the back, so that the lists ascend; 0 ends a list. `first` is lent with 0 at each owner.
pub fn hang_under(
    owner: &[u16; TREE_NODES],
    count: usize,
    first: &mut [u16; TREE_NODES],
    next: &mut [u16; TREE_NODES],
)
    requires { (0 < count) × (count ≤ 4096) × ((x : ℕ) → 0 < x → x < count → get_or owner.now x 0 < count)
        × ((v : ℕ) → v < count → get_or first.old v 0 ≡ 0) }
    ensures { Linked (by_family count owner.now) first.new next.new }
{
    for x in (1..count).rev() {
        let above = usize::from(owner[x]);
        next[x] = first[above];
        first[above] = x as u16;
    }
}
