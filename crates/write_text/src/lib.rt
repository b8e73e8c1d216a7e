// A key in plain text, written into a lent buffer from a place on: `(port, (frame, {@seq, stamp}))`. What stands before and behind it stays.
// The names are those of so many label records, which the part `labels` begins with.
// Stays: buffer and place go in and the next place comes out, because a struct that holds the `&mut` owes in each function that it holds it still, and is
// no plainer.
#![tactic(auto)]

ghost use Rattle.std.specs.Prelude.{◌+◌, ◌≤◌, ◌≡◌, true, length};
ghost use Rattle.meaning.specs.Records.{read_label, read_key, key_in, is_some};
ghost use Rattle.meaning.specs.Text.{print_key, typed_of};
ghost use Rattle.read_entry.specs.Labels.{labels_at};
ghost use Rattle.read_entry.specs.Repeats.{Standing};
ghost use Rattle.write_bytes.specs.Wrote.{Wrote};
ghost use Rattle.write_text.specs.Names.{Named, names};
ghost use Rattle.write_text.specs.Texts.{label_text, declared_text, symbol_text, path_text, paths_text};

use read_record::fields::{HEAD_BYTES, word};
use read_record::keys::{context, count as path_count, path as key_path, target};
use read_record::limits::TEXT;
use write_bytes::put;

// "number, class (1 element, 2 attribute), name, the rest": where class and name stand in a label's body
const CLASS_AT: usize = 1;

const NAME_AT: usize = 2;

const ANY_PATH: usize = 0;

const ATTRIBUTE: u8 = 2;

// So many label records, one behind the other.
#[derive(Clone, Copy)]
struct Labels<'a> {
    records: &'a [u8],
    count: usize,
}

// The name of a label's body, "`@` before attribute names".
fn put_label(out: &mut [u8], at: usize, body: &[u8]) -> usize
    requires { (2 ≤ length body.now) × (at + length (label_text (read_label body.now)) ≤ length out.old) }
    ensures { Wrote out.old out.new at (label_text (read_label body.now)) result }
{
    if body[CLASS_AT] != ATTRIBUTE {
        return put(out, at, &body[NAME_AT..]);
    }
    let name_at = put(out, at, b"@");
    put(out, name_at, &body[NAME_AT..])
}

// A declared label: that of the first record with its number.
fn put_declared(out: &mut [u8], at: usize, labels: &Labels, n: usize) -> usize
    requires { Named labels.now × (at + length (declared_text (names labels.now) n) ≤ length out.old) }
    ensures { Wrote out.old out.new at (declared_text (names labels.now) n) result }
{
    let mut rest = labels.records;
    for _ in 0..labels.count {
        let end = word(rest, 0);
        let body = &rest[HEAD_BYTES..end];
        if usize::from(body[0]) == n {
            return put_label(out, at, body);
        }
        rest = &rest[end..];
    }
    at
}

// "`_*` for the any-path, `#` for text"
fn put_symbol(out: &mut [u8], at: usize, labels: &Labels, s: usize) -> usize
    requires { Named labels.now × (at + length (symbol_text (names labels.now) s) ≤ length out.old) }
    ensures { Wrote out.old out.new at (symbol_text (names labels.now) s) result }
{
    match s {
        ANY_PATH => put(out, at, b"_*"),
        TEXT => put(out, at, b"#"),
        _ => put_declared(out, at, labels, s),
    }
}

// "labels joined by dots", "a lone `.` for the empty path"
fn put_path_text(out: &mut [u8], at: usize, labels: &Labels, path: &[u8]) -> usize
    requires { Named labels.now × (at + length (path_text (names labels.now) path.now) ≤ length out.old) }
    ensures { Wrote out.old out.new at (path_text (names labels.now) path.now) result }
{
    if path.len() == 0 {
        return put(out, at, b".");
    }
    let mut next = put_symbol(out, at, labels, usize::from(path[0]));
    for i in 1..path.len() {
        let symbol_at = put(out, next, b".");
        next = put_symbol(out, symbol_at, labels, usize::from(path[i]));
    }
    next
}

// The key paths of a key's body, "exactly one space after each comma".
fn put_paths_text(out: &mut [u8], at: usize, labels: &Labels, body: &[u8]) -> usize
    requires { Named labels.now × (is_some (read_key body.now) ≡ true) × (at + length (paths_text (names labels.now) (key_in body.now).paths) ≤ length out.old) }
    ensures { Wrote out.old out.new at (paths_text (names labels.now) (key_in body.now).paths) result }
{
    let paths = path_count(body);
    if paths == 0 {
        return at;
    }
    let mut next = put_path_text(out, at, labels, key_path(body, 0));
    for i in 1..paths {
        let path_at = put(out, next, b", ");
        next = put_path_text(out, path_at, labels, key_path(body, i));
    }
    next
}

// One key a line; the key is that of a record's body.
pub fn put_line(out: &mut [u8], at: usize, labels: &[u8], count: usize, body: &[u8]) -> usize
    requires { Standing 6 count labels.now × (is_some (read_key body.now) ≡ true) × (at + length (print_key (typed_of (labels_at count labels.now) (key_in body.now))) ≤ length out.old) }
    ensures { Wrote out.old out.new at (print_key (typed_of (labels_at count labels.now) (key_in body.now))) result }
{
    let labels = Labels {
        records: labels,
        count,
    };
    let context_at = put(out, at, b"(");
    let context_end = put_path_text(out, context_at, &labels, context(body));
    let target_at = put(out, context_end, b", (");
    let target_end = put_path_text(out, target_at, &labels, target(body));
    let paths_at = put(out, target_end, b", {");
    let paths_end = put_paths_text(out, paths_at, &labels, body);
    put(out, paths_end, b"}))")
}
