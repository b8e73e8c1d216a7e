// The lines of a campaign's report, written into a lent buffer: "one line a key (number, kept, broken), then number and
// count for each refusal number that occurred, ascending, then `unread` and the count of unreadable names".
// Stays: buffer and place go in and the next place comes out, because a struct that holds the `&mut` owes in each function that it holds it still, and is
// no plainer.
#![tactic(auto)]

ghost use Rattle.std.specs.Prelude.{◌+◌, ◌≤◌, ◌<◌, ◌≡◌, length};
ghost use Rattle.meaning.specs.Campaign.{report_bytes};
ghost use Rattle.meaning.specs.Tally.{counts_of};
ghost use Rattle.write_bytes.specs.Wrote.{Wrote};
ghost use Rattle.op_tally.specs.Counting.{tally_of};
ghost use Rattle.write_report.specs.Lines.{ThreeWritten, TwoWritten, KeysWritten, RefusalsTo};

use op_tally::{NUMBERS, PROFILE_KEYS, Tally};
use write_bytes::put;
use write_listing::put_field;

const SPACE: u8 = b' ';

const NEWLINE: u8 = b'\n';

// The line of key n.
fn put_key(out: &mut [u8], at: usize, n: usize, kept: u16, broken: u16) -> usize
    requires { (n < 64) × (at + 33 ≤ length out.old) }
    ensures { ThreeWritten out.old out.new at n kept broken result }
{
    let after_number = put_field(out, at, Some(n), SPACE);
    let after_kept = put_field(out, after_number, Some(usize::from(kept)), SPACE);
    put_field(out, after_kept, Some(usize::from(broken)), NEWLINE)
}

fn put_keys(
    out: &mut [u8],
    keys: usize,
    kept: [u16; PROFILE_KEYS],
    broken: [u16; PROFILE_KEYS],
) -> usize
    requires { (keys ≤ 64) × (length kept ≡ 64) × (length broken ≡ 64) × (65536 ≤ length out.old) }
    ensures { KeysWritten out.old out.new keys kept broken result }
{
    let mut at = 0;
    for n in 0..keys {
        at = put_key(out, at, n, kept[n], broken[n]);
    }
    at
}

// The line of a refusal number; none where it did not occur.
fn put_refusal(out: &mut [u8], at: usize, number: usize, count: u16) -> usize
    requires { (number < 20) × (at + 22 ≤ length out.old) }
    ensures { TwoWritten out.old out.new at number count result }
{
    if count == 0 {
        return at;
    }
    let after_number = put_field(out, at, Some(number), SPACE);
    put_field(out, after_number, Some(usize::from(count)), NEWLINE)
}

fn put_refusals(out: &mut [u8], start: usize, refused: [u16; NUMBERS]) -> usize
    requires { (length refused ≡ 20) × (start + 440 ≤ length out.old) }
    ensures { RefusalsTo out.old out.new start 20 refused result }
{
    let mut at = start;
    for number in 1..NUMBERS {
        at = put_refusal(out, at, number, refused[number]);
    }
    at
}

// The whole report from the buffer's front; every byte behind it stays.
pub fn put_report(out: &mut [u8], keys: usize, t: Tally) -> usize
    requires { (keys ≤ 64) × (65536 ≤ length out.old) }
    ensures { Wrote out.old out.new 0 (report_bytes keys (counts_of (tally_of t))) result }
{
    let after_keys = put_keys(out, keys, t.kept, t.broken);
    let after_refusals = put_refusals(out, after_keys, t.refused);
    let after_word = put(out, after_refusals, b"unread ");
    put_field(out, after_word, Some(usize::from(t.unread)), NEWLINE)
}
