// One line's record, put behind the profile that was made so far.
use crate::words::{byte_in, split_word};
use op_answers::{Input, Refusal};
use op_read_line::read_line;
use program_layout::names::{ATTRIBUTE_CLASS, NAME_AT};
use program_layout::parts::part;
use program_records::{append, append_byte, append_head, has_room};
use read_judged::RefusalKind;
use read_record::bodies::{EDITION_KIND, LABEL_KIND};

// Why a line adds nothing: it is no line of a profile, or it is refused.
#[derive(Clone, Copy, Debug, PartialEq, Eq)]
pub enum LineError {
    NoLine,
    Refused(Refusal),
}

impl From<Refusal> for LineError {
    ghost use Rattle.std.specs.Prelude.{◌≡◌};
    ghost use Rattle.program_profile_lines.specs.declared.lines.LineError.TheVariants.{Refused};

    ghost from_gives = { λ refusal error. error ≡ Refused refusal };

    fn from(refusal: Refusal) -> LineError {
        LineError::Refused(refusal)
    }
}

// "class (1 element, 2 attribute)"
const ELEMENT_CLASS: usize = 1;

// A record of kind 6 has one byte behind its head.
const EDITION_BYTES: usize = 5;

// 7: the profile is over its size.
pub fn too_large() -> Refusal {
    Refusal {
        kind: RefusalKind::TooLarge,
        input: Input::Profile,
        place: 0,
    }
}

// So many bytes more are within the profile's size.
fn judge_room(made: &[u8], used: usize, more: usize) -> Result<(), Refusal> {
    if has_room(made, used, more) {
        Ok(())
    } else {
        Err(too_large())
    }
}

fn add_edition(word: &[u8], made: &mut [u8], used: usize) -> Result<usize, LineError> {
    let number = byte_in(word).ok_or(LineError::NoLine)?;
    judge_room(made, used, EDITION_BYTES)?;
    let body = append_head(made, used, EDITION_BYTES, EDITION_KIND);
    Ok(append_byte(made, body, number))
}

// "number, class (1 element, 2 attribute), name, the rest"
fn put_label(made: &mut [u8], used: usize, number: usize, class: usize, name: &[u8]) -> usize {
    let number_at = append_head(made, used, NAME_AT + name.len(), LABEL_KIND);
    let class_at = append_byte(made, number_at, number);
    let name_at = append_byte(made, class_at, class);
    append(made, name_at, name)
}

// The words behind `element` or `attribute`.
fn add_label(words: &[u8], class: usize, made: &mut [u8], used: usize) -> Result<usize, LineError> {
    let (word, name) = split_word(words);
    let number = byte_in(word).ok_or(LineError::NoLine)?;
    if name.is_empty() || name.contains(&b' ') {
        return Err(LineError::NoLine);
    }
    judge_room(made, used, NAME_AT + name.len())?;
    Ok(put_label(made, used, number, class, name))
}

// The key's record is `read_line`'s answer over the profile made so far.
fn add_key(
    line: &[u8],
    made: &mut [u8],
    used: usize,
    answer: &mut [u8],
) -> Result<usize, LineError> {
    let size = read_line(part(made, 0, used), line, answer)?;
    let record = part(answer, 0, size);
    judge_room(made, used, record.len())?;
    Ok(append(made, used, record))
}

// A line without its end, behind the first `used` bytes of the profile made so far, and how many these are then; the answer buffer is for a key's
// record. Keys are the lines that begin with a parenthesis.
pub fn add_line(
    line: &[u8],
    made: &mut [u8],
    used: usize,
    answer: &mut [u8],
) -> Result<usize, LineError> {
    if line.starts_with(b"(") {
        return add_key(line, made, used, answer);
    }
    let (word, rest) = split_word(line);
    match word {
        b"edition" => add_edition(rest, made, used),
        b"element" => add_label(rest, ELEMENT_CLASS, made, used),
        b"attribute" => add_label(rest, ATTRIBUTE_CLASS, made, used),
        _ => Err(LineError::NoLine),
    }
}
