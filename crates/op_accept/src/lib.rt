// The prologue of the public operations, once: a profile, or a profile with a question, is accepted or refused by the numbered table.
#![tactic(auto)]

ghost use Rattle.op_accept.specs.Taken.{ProfileTaken, BothTaken};

use op_answers::{Input, Refusal, of_input};
use read_inputs::profile::{Profile, read_profile};
use read_inputs::question::read_question;

pub fn accept_profile(profile: &[u8]) -> Result<Profile, Refusal>
    ensures { ProfileTaken profile.now result }
{
    of_input(read_profile(profile), Input::Profile)
}

// The profile's refusal first, then the question's.
pub fn accept_both(profile: &[u8], question: &[u8]) -> Result<Profile, Refusal>
    ensures { BothTaken profile.now question.now result }
{
    let accepted = accept_profile(profile)?;
    of_input(read_question(question, &accepted.classes), Input::Question)?;
    Ok(accepted)
}
