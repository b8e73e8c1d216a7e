// The reader of keys in plain text: profile as input 1, the line as input 2, answer buffer.
#![tactic(auto)]

ghost use Rattle.std.specs.Prelude.{◌≡◌, ◌≤◌, length};
ghost use Rattle.meaning.specs.Operations.{key_read};
ghost use Rattle.meaning.specs.Text.{ReadsLine};
ghost use Rattle.op_answers.specs.Cases.{filling_answer};
ghost use Rattle.read_inputs.specs.Accepted.{GivenProfile};
ghost use Rattle.op_read_line.specs.Reading.{of_line};

use op_accept::accept_profile;
use op_answers::{Input, Refusal, has_room};
use read_inputs::profile::Profile;
use read_judged::RefusalKind;
use read_labels::first::first_entry;
use read_line::line::read_key_line;
use read_line::parts::RECORD_BYTES;
use read_walker::record_at;
use write_bytes::put;

// The line's refusal, as that of input 2.
fn of_line(read: Result<usize, RefusalKind>) -> Result<usize, Refusal>
    ensures { result ≡ of_line read }
{
    read.map_err(|kind| Refusal {
        kind,
        input: Input::Question,
        place: 0,
    })
}

// The answer for a line under an accepted profile.
fn read_accepted(
    profile: &[u8],
    accepted: &Profile,
    line: &[u8],
    answer: &mut [u8],
) -> Result<usize, Refusal>
    requires { GivenProfile profile.now accepted.now.second accepted.now.before accepted.now.keys accepted.now.classes × (65536 ≤ length answer.old) }
    ensures { ReadsLine profile.now line.now answer.old (filling_answer key_read result answer.new) }
{
    let first = first_entry(accepted.second);
    let labels = record_at(profile, first);
    let mut record = [0u8; RECORD_BYTES];
    let read = read_key_line(
        labels,
        accepted.before - first,
        &accepted.classes,
        line,
        &mut record,
    );
    let used = of_line(read)?;
    Ok(put(answer, 0, &record[..used]))
}

// The key's whole record; every byte behind it stays, and a refusal changes none.
pub fn read_line(profile: &[u8], line: &[u8], answer: &mut [u8]) -> Result<usize, Refusal>
    ensures { ReadsLine profile.now line.now answer.old (filling_answer key_read result answer.new) }
{
    has_room(answer)?;
    let accepted = accept_profile(profile)?;
    read_accepted(profile, &accepted, line, answer)
}
