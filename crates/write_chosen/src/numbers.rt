// "the numbers of the dropped keys", ascending.
ghost use Rattle.std.specs.Prelude.{◌≤◌, ◌<◌, ◌≡◌, length, take};
ghost use Rattle.meaning.specs.Reduction.{dropped_numbers};
ghost use Rattle.theory_reduce.specs.Numbers.{Listed};
ghost use Rattle.write_chosen.specs.Dropping.{NumberIf, is_gone};

use crate::records::PROFILE_KEYS;

// The first `count` numbers; behind them all are 0.
// Stays: so many numbers with their count beside them, because nothing here stands on the heap.
#[derive(Clone, Copy, Debug, PartialEq, Eq)]
pub struct Dropped {
    pub numbers: [usize; PROFILE_KEYS],
    pub count: usize,
}

// Number n more, where its key does not stay.
fn number_if(dropped: Dropped, n: usize, stays: bool) -> Dropped
    requires { dropped.count < 64 }
    ensures { NumberIf dropped n stays result }
{
    if stays {
        return dropped;
    }
    let mut more = dropped;
    more.numbers[dropped.count] = n;
    more.count += 1;
    more
}

pub fn dropped_numbers(keys: usize, stays: [bool; PROFILE_KEYS]) -> Dropped
    requires { (keys ≤ 64) × (length stays ≡ 64) }
    ensures { Listed result.numbers result.count (dropped_numbers (take keys stays)) }
{
    let mut dropped = Dropped {
        numbers: [0usize; PROFILE_KEYS],
        count: 0,
    };
    for n in 0..keys {
        dropped = number_if(dropped, n, stays[n]);
    }
    dropped
}

// Key n is there and does not stay.
#[tactic(auto, using(crate::specs::Dropping::gone_told, crate::specs::Dropping::gone_not_there))]
pub fn is_dropped(keys: usize, stays: [bool; PROFILE_KEYS], n: usize) -> bool
    requires { keys ≤ 64 }
    ensures { result ≡ is_gone keys stays n }
{
    n < keys && !stays[n]
}
