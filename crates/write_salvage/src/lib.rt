// The lines of a salvage listing, each put into the lent buffer only where its number is one of the block's.
#![tactic(auto)]

pub mod lines;

ghost use Rattle.std.specs.Prelude.{◌+◌, ◌<◌, ◌≤◌, ◌≡◌, cond, eqb, [], ◌∷◌, length};
ghost use Rattle.meaning.specs.Salvage.{salvaged_line, drop_lines, broken_line};
ghost use Rattle.op_answers.specs.Cases.{numbers_of};
ghost use Rattle.write_salvage.specs.Blocks.{in_block, Puts, drop_of, Window, told, dropped_lines};

use crate::lines::{put_broken, put_drop, put_salvaged};
use op_answers::Witness;

// "asked for in blocks of 1,024 lines"
pub const BLOCK_LINES: usize = 1024;

// Bytes written and lines passed so far.
#[derive(Clone, Copy, Debug, PartialEq, Eq)]
pub struct Put {
    pub at: usize,
    pub lines: usize,
}

// Whether the line of that number stands in the block that begins with line `start`.
fn in_block(start: usize, line: usize) -> bool
    requires { start ≤ 12288 }
    ensures { result ≡ in_block start line }
{
    start <= line && line < start + BLOCK_LINES
}

// The first line.
fn pass_salvaged(out: &mut [u8], start: usize, dropped: usize) -> Put
    requires { (42 ≤ length out.old) × (start ≤ 12288) }
    ensures { Window out.old out.new start (salvaged_line dropped ∷ []) result.at result.lines 0 }
{
    if in_block(start, 0) {
        let at = put_salvaged(out, 0, dropped);
        return Put { at, lines: 1 };
    }
    Put { at: 0, lines: 1 }
}

// "then a line each: record, reason", where the record was dropped.
fn pass_reason(out: &mut [u8], before: Put, start: usize, n: usize, reason: usize) -> Put
    requires { (before.at + 42 ≤ length out.old) × (start ≤ 12288) × (before.lines < 65536) }
    ensures { Puts out.old out.new start before.at before.lines (drop_of n reason) result.at result.lines 0 }
{
    if reason == 0 {
        return before;
    }
    let lines = before.lines + 1;
    if in_block(start, before.lines) {
        let at = put_drop(out, before.at, n, reason);
        return Put { at, lines };
    }
    Put { lines, ..before }
}

// The lines that a record has: one where it was dropped.
fn lines_of(reason: u8) -> usize
    ensures { (result ≡ cond (eqb reason 0) 0 1) × (result ≤ 1) }
{
    usize::from(reason != 0)
}

// How many records have a reason.
fn count_dropped(reasons: &[u8]) -> usize
    requires { length reasons.now < 65536 }
    ensures { (result ≡ length (drop_lines 0 reasons.now)) × (result < 65536) }
{
    let mut dropped = 0;
    for &reason in reasons {
        dropped += lines_of(reason);
    }
    dropped
}

// The first line with that number, and a line for each record that has a reason.
fn put_reasons(out: &mut [u8], start: usize, reasons: &[u8], dropped: usize) -> Put
    requires { (65536 ≤ length out.old) × (start ≤ 12288) × (length reasons.now ≤ 11264) }
    ensures { Window out.old out.new start (salvaged_line dropped ∷ drop_lines 0 reasons.now) result.at result.lines 0 }
{
    let mut put = pass_salvaged(out, start, dropped);
    for (n, &reason) in reasons.iter().enumerate() {
        put = pass_reason(out, put, start, n, usize::from(reason));
    }
    put
}

// "lists every dropped record": those with a reason, and last, where the walk stopped at a record, that record.
pub fn put_dropped(out: &mut [u8], start: usize, reasons: &[u8], stopped: bool) -> Put
    requires { (65536 ≤ length out.old) × (start ≤ 12288) × (length reasons.now ≤ 11264) }
    ensures { Window out.old out.new start (dropped_lines (told reasons.now (cond stopped 1 0))) result.at result.lines 0 }
{
    let stopped = usize::from(stopped);
    let dropped = count_dropped(reasons) + stopped;
    let before = put_reasons(out, start, reasons, dropped);
    pass_reason(out, before, start, reasons.len(), stopped)
}

// The line of a broken key.
pub fn pass_broken(out: &mut [u8], before: Put, start: usize, key: usize, w: Witness) -> Put
    requires { (before.at + 259 ≤ length out.old) × (start ≤ 12288) × (before.lines < 65536) }
    ensures { Puts out.old out.new start before.at before.lines (broken_line key (numbers_of w) ∷ []) result.at result.lines 217 }
{
    let lines = before.lines + 1;
    if in_block(start, before.lines) {
        let at = put_broken(out, before.at, key, w);
        return Put { at, lines };
    }
    Put { lines, ..before }
}
