// The two operations under an accepted profile.
ghost use Rattle.std.specs.Prelude.{◌≡◌, ◌≤◌, length, take, Ok};
ghost use Rattle.meaning.specs.Operations.{drop_proved};
ghost use Rattle.meaning.specs.Reduction.{ProvesDropped};
ghost use Rattle.op_answers.specs.Cases.{used_of};
ghost use Rattle.op_lean.specs.Leaned.{Cut, PutLean, Accepted};
ghost use Rattle.op_lean.specs.Returns.{Reducing, proof_of};

use crate::Lean;
use op_answers::Decision;
use op_decider::decide_accepted;
use op_lean_keys::reduction;
use read_inputs::profile::Profile;
use read_walker::{front_length, record_at};
use write_bytes::put;
use write_chosen::numbers::{dropped_numbers, is_dropped};
use write_chosen::records::{Chosen, PROFILE_KEYS, put_chosen};

// "profile 16,384 bytes"; a reduced profile has no more than the profile.
const PROFILE_BYTES: usize = 16384;

// The reduced profile, from the front of a buffer: what stands before the keys, and the records of those that stay. The part begins at the first key.
fn put_lean(
    out: &mut [u8],
    profile: &[u8],
    part: &[u8],
    keys: usize,
    stays: [bool; PROFILE_KEYS],
) -> Chosen
    requires { Cut out.old profile.now part.now keys stays }
    ensures { PutLean out.old out.new profile.now (take keys stays) result }
{
    let before = profile.len() - part.len();
    let at = put(out, 0, &profile[..before]);
    put_chosen(out, at, part, keys, stays)
}

pub fn reduce_accepted(profile: &[u8], accepted: &Profile, answer: &mut [u8]) -> Lean
    requires { Accepted profile.now accepted.now.before accepted.now.keys accepted.now.classes accepted.now.second × (65536 ≤ length answer.old) }
    ensures { Reducing profile.now answer.old answer.new (Ok result) }
{
    let keys = accepted.keys;
    let part = record_at(profile, accepted.before);
    let stays = reduction(part, keys, &accepted.classes, accepted.second);
    let chosen = put_lean(answer, profile, part, keys, stays);
    let gone = dropped_numbers(keys, stays);
    let dropped = gone.numbers;
    Lean {
        used: chosen.end,
        dropped,
        count: gone.count,
    }
}

// The decider's bytes, which are a proof: over the reduced profile it has no other answer for a dropped key.
fn proof_of(decided: Decision) -> usize
    ensures { result ≡ proof_of decided }
{
    match decided {
        Decision::Implied(used) | Decision::NotImplied(used) => used,
    }
}

// "a proof for each dropped key": decided again against the reduced profile, whose key numbers it cites.
pub fn prove_accepted(profile: &[u8], accepted: &Profile, n: usize, answer: &mut [u8]) -> usize
    requires { Accepted profile.now accepted.now.before accepted.now.keys accepted.now.classes accepted.now.second × (65536 ≤ length answer.old) }
    ensures { ProvesDropped profile.now n answer.old (used_of drop_proved result answer.new) }
{
    let keys = accepted.keys;
    let part = record_at(profile, accepted.before);
    let stays = reduction(part, keys, &accepted.classes, accepted.second);
    if !is_dropped(keys, stays, n) {
        return 0;
    }
    let mut lean = [0u8; PROFILE_BYTES];
    let chosen = put_lean(&mut lean, profile, part, keys, stays);
    let rest = record_at(part, n);
    let asked = &rest[..front_length(rest)];
    let left = Profile {
        keys: chosen.count,
        ..*accepted
    };
    proof_of(decide_accepted(&lean[..chosen.end], asked, &left, answer))
}
