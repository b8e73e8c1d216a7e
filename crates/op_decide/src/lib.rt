// "decide a question": profile and question as inputs 1 and 2, the answer buffer as input 4. No `requires`: it takes arbitrary bytes and
// refuses by the numbered table.
#![tactic(auto)]

ghost use Rattle.meaning.specs.Operations.{Decides};
ghost use Rattle.op_answers.specs.Cases.{deciding_answer};

use op_accept::accept_both;
use op_answers::{Decision, Refusal, has_room};
use op_decider::decide_accepted;

// Implied, with a proof at the front of the buffer, exactly when every finite tree that keeps the profile keeps the asked key; else not
// implied, with the one tree that the specification fixes. Every byte behind those used stays, and a refusal changes none.
pub fn decide(profile: &[u8], question: &[u8], answer: &mut [u8]) -> Result<Decision, Refusal>
    ensures { Decides profile.now question.now answer.old (deciding_answer result answer.new) }
{
    has_room(answer)?;
    let accepted = accept_both(profile, question)?;
    Ok(decide_accepted(profile, question, &accepted, answer))
}
