// The state of a campaign, by value: a count for each key number and for each refusal number, and of the unreadable names.
// A count stops at what two bytes hold, so that nothing is asked of a tally; the 200 inputs of a campaign stay far below.
#![tactic(auto)]

ghost use Rattle.std.specs.Prelude.{◌≤◌, ◌<◌, ◌≡◌, length};
ghost use Rattle.meaning.specs.Tally.{no_tally, bump, AddsUnread};
ghost use Rattle.op_tally.specs.Counting.{tally_of, RefusedMore, KeyMore, KeysMore};

// "profile .. 64 keys"
pub const PROFILE_KEYS: usize = 64;
// Refusal numbers are 1 to 19.
pub const NUMBERS: usize = 20;

// Stays: two lists of counts beside each other, because the tally of `meaning` has them so, and `tally_of` takes each as it is.
#[derive(Clone, Copy, Debug, PartialEq, Eq)]
pub struct Tally {
    pub kept: [u16; PROFILE_KEYS],
    pub broken: [u16; PROFILE_KEYS],
    pub refused: [u16; NUMBERS],
    pub unread: u16,
}

// Before the first input.
pub fn no_counts() -> Tally
    ensures { tally_of result ≡ no_tally }
{
    Tally {
        kept: [0u16; PROFILE_KEYS],
        broken: [0u16; PROFILE_KEYS],
        refused: [0u16; NUMBERS],
        unread: 0,
    }
}

fn one_more(n: u16) -> u16
    ensures { result ≡ bump n }
{
    n.saturating_add(1)
}

// "`unread` and the count of unreadable names"
pub fn count_unread(t: Tally) -> Tally
    ensures { AddsUnread (tally_of t) (tally_of result) }
{
    Tally {
        unread: one_more(t.unread),
        ..t
    }
}

// "the number refused by each refusal number"
pub fn count_refused(t: Tally, number: usize) -> Tally
    requires { number < 20 }
    ensures { RefusedMore (tally_of t) number (tally_of result) }
{
    let mut tally = t;
    tally.refused[number] = one_more(t.refused[number]);
    tally
}

// "the number of segments that keep it, that break it"
fn count_key(t: Tally, n: usize, breaks: bool) -> Tally
    requires { n < 64 }
    ensures { KeyMore (tally_of t) n breaks (tally_of result) }
{
    let mut tally = t;
    if breaks {
        tally.broken[n] = one_more(t.broken[n]);
    } else {
        tally.kept[n] = one_more(t.kept[n]);
    }
    tally
}

// Of each key whether the segment breaks it.
pub fn count_keys(t: Tally, keys: usize, breaks: [bool; PROFILE_KEYS]) -> Tally
    requires { (keys ≤ 64) × (length breaks ≡ 64) }
    ensures { KeysMore (tally_of t) keys breaks (tally_of result) }
{
    let mut tally = t;
    for n in 0..keys {
        tally = count_key(tally, n, breaks[n]);
    }
    tally
}
