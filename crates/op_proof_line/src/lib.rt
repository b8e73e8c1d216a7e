// The key of one line of an accepted proof, in plain text as `op_write_line` writes a question. No `requires`: it takes arbitrary bytes and refuses
// by the numbered table.
#![tactic(auto)]

ghost use Rattle.std.specs.Prelude.{◌≤◌, length};
ghost use Rattle.meaning.specs.Operations.{line_written};
ghost use Rattle.meaning.specs.ProofText.{line_text, WritesProofLine};
ghost use Rattle.op_answers.specs.Cases.{filling_answer};
ghost use Rattle.write_bytes.specs.Wrote.{Wrote};
ghost use Rattle.op_proof_line.specs.Writing.{Proved};

use op_accept::accept_profile;
use op_answers::{Refusal, has_room};
use op_proof::check_proof;
use read_labels::first::first_entry;
use read_walker::record_at;
use rule_premises::line_key;
use write_text::put_line;

// The key of line n of a proof that the check accepts, by the names of its profile; nothing where there is no such line. The profile is accepted:
// it is read again for the number of its labels.
fn put_key(out: &mut [u8], profile: &[u8], proof: &[u8], n: usize) -> usize
    requires { Proved profile.now proof.now × (65536 ≤ length out.old) }
    ensures { Wrote out.old out.new 0 (line_text profile.now proof.now n) result }
{
    let rest = record_at(proof, n);
    if rest.is_empty() {
        return 0;
    }
    let accepted = accept_profile(profile).unwrap();
    let first = first_entry(accepted.second);
    let labels = record_at(profile, first);
    let key = line_key(proof, n);
    put_line(out, 0, labels, accepted.before - first, key)
}

// The key at the front of the answer buffer, without a line end. "A proof that is not accepted is refused with the checker's number": by the check
// itself. 14 comes first. Every byte behind the key stays, and a refusal changes none.
pub fn write_proof_line(
    profile: &[u8],
    question: &[u8],
    proof: &[u8],
    n: usize,
    answer: &mut [u8],
) -> Result<usize, Refusal>
    ensures { WritesProofLine profile.now question.now proof.now n answer.old (filling_answer line_written result answer.new) }
{
    has_room(answer)?;
    check_proof(profile, question, proof)?;
    Ok(put_key(answer, profile, proof, n))
}
