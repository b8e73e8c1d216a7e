// "a profile key s lets (j, k) step to chain node i (i ≤ k, i ≤ n) when ..": the first step in the ranges of the loops, a function for each
// loop. Landings do not depend on the node, and most spots have none: they are tested once for each key and spot, before the nodes.
ghost use Rattle.std.specs.Prelude.{◌≡◌, MatchOption};
ghost use Rattle.meaning.specs.Records.{key_in};
ghost use Rattle.step_rows.specs.Drawn.{row_in};
ghost use Rattle.read_record.specs.Seen.{seen};
ghost use Rattle.step_search.specs.Firing.{fires_in, OnPart, AtSpot, OnBranch, Hit, NoneAt, NoneOn};
ghost use Rattle.step_search.specs.Ranges.{BelowT, OfKeys, NoneOf, HitKeys, NoneLeft};

use path_words::member;
use read_record::fields::HEAD_BYTES;
use read_record::key::Key;
use read_record::keys::count;
use read_walker::front_length;
use step_landings::{all_land, chain_end};
use step_rows::Pattern;

// A remembered step: profile key number `key` lets spot (branch, spot) step to chain node `node`.
#[derive(Clone, Copy, Debug, Default, PartialEq, Eq)]
pub struct Taken {
    pub key: usize,
    pub node: usize,
    pub branch: usize,
    pub spot: usize,
}

// The context and the target of a step, its landing apart.
fn fires_to(pattern: &Pattern, key: &Key, i: usize, j: usize, k: usize) -> bool
    requires { OnPart pattern.now.rows i j k }
    ensures { result ≡ fires_in (seen key.now) (row_in pattern.now.rows j) i k }
{
    let symbols = pattern.row(j);
    member(&symbols[i..k], key.target()) && member(&symbols[..i], key.context())
}

// The first chain node, down to u, that the key lets spot (j, k) step to.
fn fire_at(
    pattern: &Pattern,
    key: &Key,
    number: usize,
    j: usize,
    k: usize,
    u: usize,
) -> Option<Taken>
    requires { AtSpot pattern.now.asked.now pattern.now.rows j k u }
    ensures { MatchOption result (NoneAt (key_in pattern.now.asked.now) (seen key.now) u j k) (Hit (key_in pattern.now.asked.now) (seen key.now) number u) }
{
    if !all_land(pattern, key, j, k) {
        return None;
    }
    for i in 0..u + 1 {
        if fires_to(pattern, key, i, j, k) {
            return Some(Taken {
                key: number,
                node: i,
                branch: j,
                spot: k,
            });
        }
    }
    None
}

// The first step of the key from branch j, from one spot on.
fn fire_on(
    pattern: &Pattern,
    key: &Key,
    number: usize,
    j: usize,
    from: usize,
    u: usize,
) -> Option<Taken>
    requires { OnBranch pattern.now.asked.now pattern.now.rows j from u }
    ensures { MatchOption result (NoneOn (key_in pattern.now.asked.now) (seen key.now) u j from) (Hit (key_in pattern.now.asked.now) (seen key.now) number u) }
{
    for k in from..pattern.row(j).len() + 1 {
        if let Some(taken) = fire_at(pattern, key, number, j, k, u) {
            return Some(taken);
        }
    }
    None
}

// The first step of one key from below u to u or above. Down to t one branch stands for all.
fn fire_of(pattern: &Pattern, key: &Key, number: usize, u: usize) -> Option<Taken>
    requires { BelowT pattern.now.asked.now pattern.now.rows u }
    ensures { MatchOption result (NoneOf (key_in pattern.now.asked.now) (seen key.now) u) (Hit (key_in pattern.now.asked.now) (seen key.now) number u) }
{
    let below = chain_end(pattern.asked) + 1;
    let mut from = u + 1;
    for j in 0..count(pattern.asked) {
        if let Some(taken) = fire_on(pattern, key, number, j, from, u) {
            return Some(taken);
        }
        from = below;
    }
    None
}

// The first step of a profile key to u or above; the part begins at the profile's first key.
pub fn fire_in(part: &[u8], keys: usize, pattern: &Pattern, u: usize) -> Option<Taken>
    requires { OfKeys part.now keys pattern.now.asked.now pattern.now.rows u }
    ensures { MatchOption result (NoneLeft part.now keys pattern.now.asked.now u) (HitKeys part.now keys pattern.now.asked.now u) }
{
    let mut rest = part;
    for number in 0..keys {
        let end = front_length(rest);
        let key = Key::new(&rest[HEAD_BYTES..end]);
        if let Some(taken) = fire_of(pattern, &key, number, u) {
            return Some(taken);
        }
        rest = &rest[end..];
    }
    None
}
