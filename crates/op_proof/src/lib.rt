// "check a proof": profile, question and proof as inputs 1, 2 and 3. No `requires`: it takes arbitrary bytes and refuses by the numbered table.
#![tactic(auto)]

ghost use Rattle.meaning.specs.Operations.{ChecksProof};
ghost use Rattle.op_answers.specs.Cases.{checking_answer};

use op_accept::accept_both;
use op_answers::{Input, Refusal, of_input};
use read_judged::RefusalKind;
use rule_lines::check::check_lines;

// "proof 65,536 bytes"
const PROOF_BYTES: usize = 65536;

// "A proof is accepted if each line follows and the last line's key is the question." The profile's refusal comes first, then the question's,
// then the proof's size, then its lines from the front.
pub fn check_proof(profile: &[u8], question: &[u8], proof: &[u8]) -> Result<(), Refusal>
    ensures { ChecksProof profile.now question.now proof.now (checking_answer result) }
{
    let accepted = accept_both(profile, question)?;
    if PROOF_BYTES < proof.len() {
        return Err(Refusal {
            kind: RefusalKind::TooLarge,
            input: Input::TreeOrProof,
            place: 0,
        });
    }
    let proved = check_lines(
        profile,
        accepted.before,
        accepted.keys,
        question,
        proof,
        &accepted.classes,
        accepted.second,
    );
    of_input(proved, Input::TreeOrProof)
}
