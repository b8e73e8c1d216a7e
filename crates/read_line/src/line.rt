// The line, part by part.
ghost use Rattle.std.specs.Prelude.{◌≡◌, ℕ, List, length, IfOk, IfErr};
ghost use Rattle.read_entry.specs.Labels.{labels_at};
ghost use Rattle.read_entry.specs.Repeats.{Standing};
ghost use Rattle.read_judged.specs.Answers.{told, number_of};
ghost use Rattle.read_line.specs.Told.{LineTold, Read, bytes_used};

use crate::parts::{path_fits, put_record, refused, set_bytes};
use read_entry::keys::KEY_LIMITS;
use read_judged::RefusalKind;
use read_key::refusal::key_refusal;
use read_record::fields::HEAD_BYTES;
use read_record::key::Key;
use read_symbols::errors::both;
use read_symbols::path::{PathRead, read_path};
use read_text::cut::cut_line;
use read_typed::set::{SetRead, read_set};
use write_order::ORDERED_BYTES;

// The paths of a line that was read; those of the set stand in a buffer beside it.
#[derive(Clone, Copy, Debug, PartialEq, Eq)]
struct Parts {
    context: PathRead,
    target: PathRead,
    set: SetRead,
}

// 17 or 18, or the line's parts.
fn read_parts(
    labels: &[u8],
    number: usize,
    classes: &[u8; 256],
    line: &[u8],
    paths: &mut [u8; ORDERED_BYTES],
) -> Result<Parts, RefusalKind>
    requires { Standing 6 number labels.now × (length paths.old ≡ 36) }
    ensures ok { IfOk result (λ parts. Read (labels_at number labels.now) classes.now line.now paths.new parts.context parts.target parts.set) }
    ensures err { IfErr result (λ kind. (out : List ℕ) → LineTold (labels_at number labels.now) classes.now line.now out (number_of kind) 0) }
{
    let cut = cut_line(line).ok_or(RefusalKind::NotALine)?;
    let ends = both(
        read_path(labels, number, cut.context),
        read_path(labels, number, cut.target),
    );
    let set = read_set(labels, number, classes, cut.set, paths);
    let ((context, target), set) = refused(both(ends, set))?;
    Ok(Parts {
        context,
        target,
        set,
    })
}

// The bytes of the record of a line's key. Nothing is stored of a line before it is known to fit, since a line may be of any length.
pub fn read_key_line(
    labels: &[u8],
    number: usize,
    classes: &[u8; 256],
    line: &[u8],
    out: &mut [u8],
) -> Result<usize, RefusalKind>
    requires { Standing 6 number labels.now × (length out.old ≡ 59) }
    ensures { LineTold (labels_at number labels.now) classes.now line.now out.new (told result) (bytes_used result) }
{
    let mut paths = [0u8; ORDERED_BYTES];
    let parts = read_parts(labels, number, classes, line, &mut paths)?;
    let set_end = set_bytes(
        path_fits(&parts.context, classes),
        path_fits(&parts.target, classes),
        parts.set,
    )?;
    let used = put_record(
        out,
        parts.context.symbols(),
        parts.target.symbols(),
        parts.set.count,
        &paths[..set_end],
    );
    let key = Key::new(&out[HEAD_BYTES..used]);
    key_refusal(&key, classes, KEY_LIMITS)?;
    Ok(used)
}
