// Lean profiles: "The result is a profile with the same labels, a proof for each dropped key from the final keys, and the numbers of the dropped keys";
// "The proofs come one call for each key". Neither operation has a `requires`: each takes arbitrary bytes and refuses by the numbered table.
#![tactic(auto)]

pub mod accepted;

ghost use Rattle.meaning.specs.Operations.{drop_proved};
ghost use Rattle.meaning.specs.Reduction.{ProvesDropped};
ghost use Rattle.op_answers.specs.Cases.{filling_answer};
ghost use Rattle.op_lean.specs.Returns.{Reducing};

use crate::accepted::{prove_accepted, reduce_accepted};
use op_accept::accept_profile;
use op_answers::{Refusal, has_room};
use write_chosen::records::PROFILE_KEYS;

// What reducing comes to: the bytes used, and the numbers of the dropped keys, ascending: the first `count`, with 0 behind them.
#[derive(Clone, Copy, Debug, PartialEq, Eq)]
pub struct Lean {
    pub used: usize,
    pub dropped: [usize; PROFILE_KEYS],
    pub count: usize,
}

// The reduced profile at the front of the answer buffer, and the numbers of the dropped keys. Every byte behind those used stays, and a refusal changes
// none.
pub fn reduce(profile: &[u8], answer: &mut [u8]) -> Result<Lean, Refusal>
    ensures { Reducing profile.now answer.old answer.new result }
{
    has_room(answer)?;
    let accepted = accept_profile(profile)?;
    Ok(reduce_accepted(profile, &accepted, answer))
}

// The proof of key n of the profile from the reduced profile's keys; "for a number not dropped a call gives 0 bytes".
pub fn prove_dropped(profile: &[u8], n: usize, answer: &mut [u8]) -> Result<usize, Refusal>
    ensures { ProvesDropped profile.now n answer.old (filling_answer drop_proved result answer.new) }
{
    has_room(answer)?;
    let accepted = accept_profile(profile)?;
    Ok(prove_accepted(profile, &accepted, n, answer))
}
