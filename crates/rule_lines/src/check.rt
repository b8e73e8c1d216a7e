// "A proof is accepted if each line follows and the last line's key is the question." Lines are judged from the front: each one's own
// refusal number, then whether it follows (9), before the next is looked at; then 10. The proof's size (7) is the caller's to test.
ghost use Rattle.std.specs.Prelude.{◌-◌};
ghost use Rattle.std.proofs.Math.ListN.{get_elem?};
ghost use Rattle.meaning.specs.Rules.{line_keys};
ghost use Rattle.meaning.specs.Refusals.{question_in, proof_walked};
ghost use Rattle.meaning.specs.Operations.{ProofJudged, single_in, labels_in, keys_in};
ghost use Rattle.rule_premises.specs.Premises.{lines_from, Earlier};
ghost use Rattle.read_inputs.specs.Accepted.{Given};
ghost use Rattle.rule_lines.specs.Checking.{IsQuestion, LastTold, checked_answer};

use read_entry::keys::judge_line;
use read_judged::{Judged, RefusalKind, at_record};
use read_record::fields::{HEAD_BYTES, word};
use read_walker::record_at;
use rule_follows::follows;
use rule_premises::line_key;

// "the last line's key is the question"
fn last_is(proof: &[u8], lines: usize, question: &[u8]) -> Judged
    requires { Earlier lines proof.now × IsQuestion question.now }
    ensures { LastTold (get_elem? (line_keys (lines_from lines proof.now)) (lines - 1)) (question_in question.now) (lines - 1) result }
{
    if lines == 0 {
        return at_record(Err(RefusalKind::OtherEnd), 0);
    }
    let last = lines - 1;
    let end = word(question, 0);
    if line_key(proof, last) == &question[HEAD_BYTES..end] {
        Ok(())
    } else {
        at_record(Err(RefusalKind::OtherEnd), last)
    }
}

// A whole proof, under an accepted profile with so many records before its keys and so many keys, and an accepted question.
pub fn check_lines(
    profile: &[u8],
    before: usize,
    keys: usize,
    question: &[u8],
    proof: &[u8],
    classes: &[u8; 256],
    second: bool,
) -> Judged
    requires { Given profile.now second before keys question.now classes.now }
    ensures { ProofJudged (single_in profile.now) (labels_in profile.now) (keys_in profile.now) (question_in question.now) (proof_walked (labels_in profile.now) proof.now) (checked_answer result) }
{
    let part = record_at(profile, before);
    let mut rest = proof;
    let mut n = 0;
    while !rest.is_empty() {
        at_record(judge_line(rest, classes, n), n)?;
        let end = word(rest, 0);
        if !follows(
            part,
            keys,
            proof,
            n,
            &rest[HEAD_BYTES..end],
            classes,
            second,
        ) {
            return at_record(Err(RefusalKind::Unfollowed), n);
        }
        rest = &rest[end..];
        n += 1;
    }
    last_is(proof, n, question)
}
