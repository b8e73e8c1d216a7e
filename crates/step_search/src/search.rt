// ARGUMENT §4: "u := c. While u < n and some profile key lets a spot (j, k), k > u, step to a chain node i ≤ u: u := min k n, and remember
// (key, i, j, k)". Down-steps are free, so the final u is the lowest node from q to t that still leads to q.
ghost use Rattle.std.specs.Prelude.{◌≡◌};
ghost use Rattle.meaning.specs.Operations.{records_from};
ghost use Rattle.step_search.specs.Finding.{Searchable, Finds};

use crate::firing::{Taken, fire_in};
use read_record::keys::context;
use read_walker::record_at;
use step_landings::chain_end;
use step_rows::draw;

// "At most |T| turns, at most 8 remembered steps."
pub const MOST_STEPS: usize = 8;

// The final u, and the remembered steps in the order taken: the first `count` of them.
#[derive(Clone, Copy, Debug, PartialEq, Eq)]
pub struct FinalU {
    pub u: usize,
    pub count: usize,
    pub steps: [Taken; MOST_STEPS],
}

// The u of the question whose key body is given, and the steps that lead to it.
pub fn find_steps(profile: &[u8], labels: usize, keys: usize, asked: &[u8]) -> FinalU
    requires { Searchable (records_from labels profile.now) keys asked.now }
    ensures { Finds (records_from labels profile.now) keys asked.now result }
{
    let part = record_at(profile, labels);
    let pattern = draw(asked);
    let t = chain_end(asked);
    let mut u = context(asked).len();
    let mut count = 0;
    let mut steps = [Taken::default(); MOST_STEPS];
    // Stays a `while`: because u moves to where a key fires, and nothing is counted.
    while u < t {
        let Some(taken) = fire_in(part, keys, &pattern, u) else {
            return FinalU { u, count, steps };
        };
        steps[count] = taken;
        count += 1;
        // "min k n": a spot in a branch leads to t.
        u = taken.spot.min(t);
    }
    FinalU { u, count, steps }
}
