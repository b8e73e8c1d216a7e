// The tables of the search, lent to every key.
ghost use Rattle.std.specs.Prelude.{◌≡◌};
ghost use Rattle.tree_search.specs.Tables.{blank_lists, blank_tables};

use read_record::limits::TREE_NODES;
use tree_pairs::memo::Memo;
use tree_rows::hung::Hung;
use tree_sorted::sorted::Sorted;

#[derive(Drop)]
pub struct Tables {
    // A list for each of up to four key paths.
    pub hung: [Hung; 4],
    pub sorted: Sorted,
    pub memo: Memo,
}

fn no_lists() -> Hung
    ensures { result ≡ blank_lists }
{
    Hung {
        from: [0; TREE_NODES],
        first: [0; TREE_NODES],
        next: [0; TREE_NODES],
    }
}

impl Tables {
    // Tables that hold 0 everywhere.
    pub fn new() -> Self
        ensures { result ≡ blank_tables }
    {
        Tables {
            hung: [no_lists(), no_lists(), no_lists(), no_lists()],
            sorted: Sorted {
                top: [0; TREE_NODES],
                group: [0; TREE_NODES],
                number: [0; TREE_NODES],
                chain: [0; TREE_NODES],
                stamp: [0; TREE_NODES],
                lead: [0; TREE_NODES],
            },
            memo: Memo {
                seen: [0; TREE_NODES],
                marks: [0; TREE_NODES],
            },
        }
    }
}
