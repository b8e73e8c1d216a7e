// The writer of keys in plain text: one key a line. No `requires`: it takes arbitrary bytes and refuses by the numbered table.
#![tactic(auto)]

ghost use Rattle.std.specs.Prelude.{◌≤◌, length};
ghost use Rattle.meaning.specs.Refusals.{question_in};
ghost use Rattle.meaning.specs.Operations.{labels_in, line_written};
ghost use Rattle.meaning.specs.Text.{WritesLine, print_key, typed_of};
ghost use Rattle.op_answers.specs.Cases.{filling_answer};
ghost use Rattle.write_bytes.specs.Wrote.{Wrote};
ghost use Rattle.read_inputs.specs.Accepted.{Given};

use op_accept::accept_both;
use op_answers::{Refusal, has_room};
use read_inputs::profile::Profile;
use read_labels::first::first_entry;
use read_record::fields::HEAD_BYTES;
use read_walker::record_at;
use write_text::put_line;

// The line of an accepted question, by the names of an accepted profile.
fn put_question(out: &mut [u8], profile: &[u8], question: &[u8], accepted: &Profile) -> usize
    requires { Given profile.now accepted.now.second accepted.now.before accepted.now.keys question.now accepted.now.classes × (65536 ≤ length out.old) }
    ensures { Wrote out.old out.new 0 (print_key (typed_of (labels_in profile.now) (question_in question.now))) result }
{
    let first = first_entry(accepted.second);
    let labels = record_at(profile, first);
    put_line(
        out,
        0,
        labels,
        accepted.before - first,
        &question[HEAD_BYTES..],
    )
}

// The question's line at the front of the answer buffer, without a line end. Every byte behind it stays, and a refusal changes none.
pub fn write_line(profile: &[u8], question: &[u8], answer: &mut [u8]) -> Result<usize, Refusal>
    ensures { WritesLine profile.now question.now answer.old (filling_answer line_written result answer.new) }
{
    has_room(answer)?;
    let accepted = accept_both(profile, question)?;
    Ok(put_question(answer, profile, question, &accepted))
}
