// The bytes of one proof line, a record of kind 4, written into a lent buffer from a place on. What stands before and behind stays.
// Stays: buffer and place go in and the next place comes out, because a struct that holds the `&mut` owes in each function that it holds it still, and is
// no plainer.
#![tactic(auto)]

ghost use Rattle.std.specs.Prelude.{◌≡◌, [], ◌∷◌, ◌+◌, ◌<◌, ◌≤◌, length};
ghost use Rattle.meaning.specs.Paths.{norm};
ghost use Rattle.meaning.specs.Records.{word_bytes, path_bytes, line_bytes};
ghost use Rattle.read_record.specs.BodyParts.{paths_of};
ghost use Rattle.theory_derive.specs.Written.{key_of, two_line};
ghost use Rattle.write_bytes.specs.Wrote.{Wrote};
ghost use Rattle.write_line.specs.Normals.{doubled_any};
ghost use Rattle.write_line.specs.LineParts.{Sized, line_head, key_part, LineFits, WroteLine};

use read_record::bodies::LINE_KIND;
use read_record::limits::{KEY_IN_LINE, LINE_SYMBOLS};
use write_bytes::put;

// The two lengths and the count inside a key body.
const KEY_LENGTHS: usize = 3;

// How many values two bytes have.
const WORDS: usize = 65536;

// Two symbols that are both the any-path.
const TWO_ANY: [u8; 2] = [0, 0];

// "rule (1), first premise (2), second premise (2)"
#[derive(Clone, Copy, Debug, PartialEq, Eq)]
pub struct Head {
    pub rule: usize,
    pub first: usize,
    pub second: usize,
}

// A number that fits a byte.
pub fn put_number(out: &mut [u8], at: usize, n: usize) -> usize
    requires { (n < 256) × (at + 1 ≤ length out.old) }
    ensures { Wrote out.old out.new at (n ∷ []) result }
{
    out[at] = n as u8;
    at + 1
}

// "two bytes, little-endian"
pub fn put_word(out: &mut [u8], at: usize, n: usize) -> usize
    requires { at + 2 ≤ length out.old }
    ensures { Sized out.old out.new at (word_bytes n) 2 result }
{
    let word = (n % WORDS) as u16;
    put(out, at, &word.to_le_bytes())
}

// "length and symbols"
pub fn put_path(out: &mut [u8], at: usize, path: &[u8]) -> usize
    requires { (length path.now < 256) × (at + length path.now + 1 ≤ length out.old) }
    ensures { Sized out.old out.new at (path_bytes path.now) (length path.now + 1) result }
{
    let next = put_number(out, at, path.len());
    put(out, next, path)
}

// The any-path stands here and again behind.
fn doubled(path: &[u8], i: usize) -> bool
    requires { i < length path.now }
    ensures { result ≡ doubled_any path.now i }
{
    path[i..].starts_with(&TWO_ANY)
}

// "Joining two paths removes doubled 0."
pub fn put_normal(out: &mut [u8], at: usize, path: &[u8]) -> usize
    requires { at + length path.now ≤ length out.old }
    ensures { Wrote out.old out.new at (norm path.now) result }
{
    let mut next = at;
    for (i, &symbol) in path.iter().enumerate() {
        if !doubled(path, i) {
            out[next] = symbol;
            next += 1;
        }
    }
    next
}

// The record's length and kind, and its fields before the key.
pub fn put_head(out: &mut [u8], at: usize, size: usize, head: Head) -> usize
    requires { (head.rule < 256) × (at + 9 ≤ length out.old) }
    ensures { Sized out.old out.new at (line_head size head.rule head.first head.second) 9 result }
{
    let kind_at = put_word(out, at, size);
    let rule_at = put_word(out, kind_at, LINE_KIND);
    let first_at = put_number(out, rule_at, head.rule);
    let second_at = put_word(out, first_at, head.first);
    put_word(out, second_at, head.second)
}

// "length and symbols of C; of T; count of key paths; length and symbols of each"
fn put_key(
    out: &mut [u8],
    at: usize,
    context: &[u8],
    target: &[u8],
    count: usize,
    paths: &[u8],
) -> usize
    requires { (length context.now < 256) × (length target.now < 256) × (count < 256) × (at + length context.now + length target.now + length paths.now + 3 ≤ length out.old) }
    ensures { Wrote out.old out.new at (key_part context.now target.now count paths.now) result }
{
    let target_at = put_path(out, at, context);
    let count_at = put_path(out, target_at, target);
    let paths_at = put_number(out, count_at, count);
    put(out, paths_at, paths)
}

// A proof line whose context and target are brought to normal form.
pub fn write_line(
    out: &mut [u8],
    at: usize,
    head: Head,
    context: &[u8],
    target: &[u8],
    count: usize,
    paths: &[u8],
) -> usize
    requires { LineFits out.old at head.rule context.now target.now count paths.now }
    ensures { WroteLine out.old out.new at (line_bytes (two_line head.rule head.first head.second (key_of context.now target.now (paths_of count paths.now)))) result }
{
    let mut c = [0u8; LINE_SYMBOLS];
    let c_end = put_normal(&mut c, 0, context);
    let mut t = [0u8; LINE_SYMBOLS];
    let t_end = put_normal(&mut t, 0, target);
    let size = KEY_IN_LINE + KEY_LENGTHS + c_end + t_end + paths.len();
    let next = put_head(out, at, size, head);
    put_key(out, next, &c[..c_end], &t[..t_end], count, paths)
}
