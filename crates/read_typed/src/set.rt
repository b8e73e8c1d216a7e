// The set of key paths: `{`, paths with a comma and a space between them, `}`.
ghost use Rattle.std.specs.Prelude.{◌≡◌, List, ℕ, length};
ghost use Rattle.read_entry.specs.Labels.{labels_at};
ghost use Rattle.read_entry.specs.Repeats.{Standing};
ghost use Rattle.read_symbols.specs.Outcomes.{behind_all};
ghost use Rattle.read_typed.specs.Texts.{text_at};
ghost use Rattle.read_typed.specs.Gathering.{SetHolds, SetReady, SetTold};

use read_key::symbols::good_key_path;
use read_symbols::errors::{TextError, both};
use read_symbols::path::{SYMBOLS, read_path};
use write_order::{ORDERED_BYTES, insert_path};

// "4 key paths in profile and question"
pub const KEY_PATHS: usize = 4;

// How many paths there are; and where each of them passes 4, the bytes that they take in record order, if they are not too many.
#[derive(Clone, Copy, Debug, PartialEq, Eq)]
pub struct SetRead {
    pub count: usize,
    pub used: Option<usize>,
}

// The text of a path, of its piece between two commas: "exactly one space after each comma". Where there is none, an empty text, which is no
// path's.
fn path_text(place: usize, piece: &[u8]) -> &[u8]
    ensures { result.now ≡ text_at place piece.now }
{
    if place == 0 {
        return piece;
    }
    piece.strip_prefix(b" ").unwrap_or(&[])
}

// One path more.
fn add_path(
    labels: &[u8],
    number: usize,
    classes: &[u8; 256],
    text: &[u8],
    set: Result<SetRead, TextError>,
    out: &mut [u8; ORDERED_BYTES],
) -> Result<SetRead, TextError>
    requires { Standing 6 number labels.now × SetReady (labels_at number labels.now) classes.now out.old set }
    ensures { (done : List (List ℕ)) → SetHolds (labels_at number labels.now) classes.now done out.old set → SetHolds (labels_at number labels.now) classes.now (behind_all done text.now) out.new result }
{
    let (set, read) = both(set, read_path(labels, number, text))?;
    let count = set.count + 1;
    let unfit = Ok(SetRead { count, used: None });
    let Some(used) = set.used else {
        return unfit;
    };
    if SYMBOLS < read.count {
        return unfit;
    }
    if !good_key_path(read.symbols(), classes, SYMBOLS) {
        return unfit;
    }
    if KEY_PATHS < count {
        return Ok(SetRead {
            count,
            used: Some(0),
        });
    }
    let end = insert_path(out, set.count, used, read.symbols());
    Ok(SetRead {
        count,
        used: Some(end),
    })
}

// All paths of a set's text, however many: "`{}` is in the grammar".
pub fn read_set(
    labels: &[u8],
    number: usize,
    classes: &[u8; 256],
    t: &[u8],
    out: &mut [u8; ORDERED_BYTES],
) -> Result<SetRead, TextError>
    requires { Standing 6 number labels.now × (length out.old ≡ 36) }
    ensures { SetTold (labels_at number labels.now) classes.now t.now out.new result }
{
    let mut set = Ok(SetRead {
        count: 0,
        used: Some(0),
    });
    if t.is_empty() {
        return set;
    }
    for (place, piece) in t.split(|&b| b == b',').enumerate() {
        set = add_path(labels, number, classes, path_text(place, piece), set, out);
    }
    set
}
