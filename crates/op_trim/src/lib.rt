// Shorter proofs: "a trimming pass that takes an accepted proof". Lines are looked at where they stand: no part of the proof is copied but into the
// answer buffer.
#![tactic(auto)]

ghost use Rattle.std.specs.Prelude.{ℕ, ◌≤◌, List, length};
ghost use Rattle.meaning.specs.Operations.{trimmed};
ghost use Rattle.meaning.specs.Trimming.{Trims, trimmed_proof};
ghost use Rattle.op_answers.specs.Cases.{filling_answer};
ghost use Rattle.theory_trim.specs.TrimmedBytes.{ProofSound};
ghost use Rattle.write_bytes.specs.Wrote.{Wrote};
ghost use Rattle.rule_stands.specs.Standing.{Proved};

use op_answers::{Refusal, has_room};
use op_proof::check_proof;
use rule_needed::marks::find_needed;
use rule_needed::numbers::find_numbers;
use rule_stands::firsts::find_firsts;
use rule_stands::stands::find_lines;
use write_trimmed::puts::put_lines;

// The trimmed proof at the front of the answer buffer: "keeps of several lines with equal keys only the earliest, points premises there, then ends
// at the earliest line that has the question's key, removes lines from which that line is not reached through premises, and renumbers". The last
// line's key is the question.
fn put_trimmed(out: &mut [u8], proof: &[u8]) -> usize
    requires { Proved proof.now × (65536 ≤ length out.old) }
    ensures { (profile question : List ℕ) → ProofSound profile question proof.now → Wrote out.old out.new 0 (trimmed_proof profile question proof.now) result }
{
    let lines = find_lines(proof);
    let firsts = find_firsts(proof, &lines.at, lines.count);
    let end = firsts[lines.count - 1];
    let marks = find_needed(proof, &lines.at, &firsts, lines.count);
    let numbers = find_numbers(&marks, end);
    put_lines(out, proof, &lines.at, &firsts, &marks, &numbers, end)
}

// "A proof that is not accepted is refused with the checker's number": by the check itself. 14 comes first; a refusal changes no byte.
pub fn trim(
    profile: &[u8],
    question: &[u8],
    proof: &[u8],
    answer: &mut [u8],
) -> Result<usize, Refusal>
    ensures { Trims profile.now question.now proof.now answer.old (filling_answer trimmed result answer.new) }
{
    has_room(answer)?;
    check_proof(profile, question, proof)?;
    Ok(put_trimmed(answer, proof))
}
