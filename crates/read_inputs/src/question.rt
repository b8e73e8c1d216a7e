// A whole question: "A question is one key record."
ghost use Rattle.std.specs.Prelude.{◌≡◌, List};
ghost use Rattle.meaning.specs.Paths.{Label};
ghost use Rattle.meaning.specs.Refusals.{question_refusal};
ghost use Rattle.read_record.specs.Classes.{Tabled};
ghost use Rattle.read_judged.specs.Answers.{refusal_of};

use read_entry::keys::judge_key;
use read_judged::{Fault, Judged, RefusalKind, at_record};
use read_record::bodies::whole;
use read_record::fields::word;

// Input 2, a question, under a class table that says what the labels say. 1: "question is empty"; 2: "a second question record", after its own 1.
pub fn read_question(bytes: &[u8], classes: &[u8; 256]) -> Judged
    ensures { (labels : List Label) → Tabled labels classes.now → refusal_of 2 result ≡ question_refusal labels bytes.now }
{
    if bytes.is_empty() {
        return Err(Fault {
            kind: RefusalKind::NotWhole,
            place: 0,
        });
    }
    at_record(judge_key(bytes, 0, classes), 0)?;
    let end = word(bytes, 0);
    if end == bytes.len() {
        return Ok(());
    }
    let kind = if whole(&bytes[end..]) {
        RefusalKind::NotAllowed
    } else {
        RefusalKind::NotWhole
    };
    Err(Fault { kind, place: 1 })
}
