// Which keys of a profile stay (document 02, request 3): "go from the last key to the first and drop a key when it is implied by those still there".
// When a key is looked at, all keys before it are still there, and of those behind it the ones that stay.
#![tactic(auto)]

ghost use Rattle.std.specs.Prelude.{◌<◌, ◌≡◌, length};
ghost use Rattle.op_lean_keys.specs.Searching.{Asking, Follows, Keyed, KeyFollows};
ghost use Rattle.op_lean_keys.specs.Turning.{Reduced};

use op_decider::steps_up;
use op_profile::profiles::body_at_front;
use read_walker::record_at;
use step_landings::chain_end;
use step_search::search::find_steps;
use write_chosen::records::{PROFILE_KEYS, put_chosen};

// 64 key records of at most 59 bytes: "a path of 8 symbols and 4 key paths in profile and question".
const CHOSEN_BYTES: usize = 3776;

// The part's keys imply the asked key: u is t, or t steps to it. No evidence is written.
fn follows(part: &[u8], keys: usize, asked: &[u8], classes: &[u8; 256], second: bool) -> bool
    requires { Asking part.now keys asked.now classes.now }
    ensures { Follows part.now keys asked.now classes.now second result }
{
    let found = find_steps(part, 0, keys, asked);
    let u = found.u;
    if u < chain_end(asked) {
        return steps_up(asked, u, classes, second);
    }
    true
}

// Key n is implied by those of the keys that stay.
fn key_follows(
    part: &[u8],
    keys: usize,
    stays: [bool; PROFILE_KEYS],
    n: usize,
    classes: &[u8; 256],
    second: bool,
) -> bool
    requires { Keyed part.now keys classes.now × (length stays ≡ 64) × (n < keys) }
    ensures { KeyFollows part.now keys stays n classes.now second result }
{
    let mut there = [0u8; CHOSEN_BYTES];
    let chosen = put_chosen(&mut there, 0, part, keys, stays);
    let count = chosen.count;
    let asked = body_at_front(record_at(part, n));
    follows(&there, count, asked, classes, second)
}

// Of each of the part's keys whether it stays.
pub fn reduction(
    part: &[u8],
    keys: usize,
    classes: &[u8; 256],
    second: bool,
) -> [bool; PROFILE_KEYS]
    requires { Keyed part.now keys classes.now }
    ensures { Reduced part.now keys classes.now second result }
{
    let mut stays = [true; PROFILE_KEYS];
    for n in (0..keys).rev() {
        stays[n] = false;
        let implied = key_follows(part, keys, stays, n, classes, second);
        stays[n] = !implied;
    }
    stays
}
