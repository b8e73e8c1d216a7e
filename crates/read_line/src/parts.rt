// What is asked of the parts of a line before its key is put together.
ghost use Rattle.std.specs.Prelude.{◌≡◌, ◌&&◌, List, ℕ, ◌≤◌, ◌<◌, length, ltb, is_some, IfOk, Some};
ghost use Rattle.meaning.specs.Records.{record_bytes};
ghost use Rattle.read_judged.specs.Answers.{told};
ghost use Rattle.read_record.specs.Classes.{good_path_by};
ghost use Rattle.read_symbols.specs.Scanning.{Slot};
ghost use Rattle.write_bytes.specs.Wrote.{Wrote};
ghost use Rattle.write_line.specs.LineParts.{key_part};
ghost use Rattle.read_line.specs.Told.{by_symbols, by_count, as_refusal};

use read_judged::RefusalKind;
use read_key::symbols::good_path;
use read_record::bodies::KEY_KIND;
use read_record::fields::HEAD_BYTES;
use read_symbols::errors::TextError;
use read_symbols::path::{PathRead, SYMBOLS};
use read_typed::set::{KEY_PATHS, SetRead};
use write_bytes::put;
use write_line::{put_number, put_path, put_word};

// The bytes of a key's record: its head, two paths of 8 symbols, the count and 4 paths, each with its length.
pub const RECORD_BYTES: usize = 59;
// The lengths of context and target, and the count of key paths.
const KEY_LENGTHS: usize = 3;

// "17 not a line of the grammar, 18 name not in the profile or there with the other class; they come with input 2 before 4, 17 first."
pub fn refused<T: Drop>(read: Result<T, TextError>) -> Result<T, RefusalKind>
    ensures { result ≡ as_refusal read }
{
    read.map_err(|error| match error {
        TextError::NotALine => RefusalKind::NotALine,
        TextError::UnknownName => RefusalKind::UnknownName,
    })
}

// A context or target passes 4: it is not too long, and not doubled.
pub fn path_fits(path: &PathRead, classes: &[u8; 256]) -> bool
    ensures { (p : List ℕ) → Slot path.now.count path.now.path p → result ≡ good_path_by classes.now 8 p }
{
    path.count <= SYMBOLS && good_path(path.symbols(), classes, SYMBOLS)
}

// 4, or 5 for the count of key paths; else the bytes that the key paths take.
pub fn set_bytes(context: bool, target: bool, set: SetRead) -> Result<usize, RefusalKind>
    ensures number { told result ≡ by_symbols (context && target && is_some set.used) (by_count (ltb set.count 1) (ltb 4 set.count)) }
    ensures bytes { IfOk result (λ used. set.used ≡ Some used) }
{
    if !context || !target {
        return Err(RefusalKind::BadSymbols);
    }
    let used = set.used.ok_or(RefusalKind::BadSymbols)?;
    if set.count < 1 || KEY_PATHS < set.count {
        return Err(RefusalKind::BadKeyPaths);
    }
    Ok(used)
}

// "length and symbols of C; of T; count of key paths; length and symbols of each", with the head before them.
pub fn put_record(
    out: &mut [u8],
    context: &[u8],
    target: &[u8],
    count: usize,
    paths: &[u8],
) -> usize
    requires { (length context.now ≤ 8) × (length target.now ≤ 8) × (count < 256) × (length paths.now ≤ 36) × (59 ≤ length out.old) }
    ensures { Wrote out.old out.new 0 (record_bytes 2 (key_part context.now target.now count paths.now)) result }
{
    let size = HEAD_BYTES + KEY_LENGTHS + context.len() + target.len() + paths.len();
    let kind_at = put_word(out, 0, size);
    let context_at = put_word(out, kind_at, KEY_KIND);
    let target_at = put_path(out, context_at, context);
    let count_at = put_path(out, target_at, target);
    let paths_at = put_number(out, count_at, count);
    put(out, paths_at, paths)
}
