// One line each.
ghost use Rattle.std.specs.Prelude.{◌+◌, ◌≤◌, length};
ghost use Rattle.meaning.specs.Salvage.{salvaged_line, broken_line};
ghost use Rattle.meaning.specs.Listing.{decimal};
ghost use Rattle.op_answers.specs.Cases.{numbers_of};
ghost use Rattle.write_salvage.specs.Lines.{WroteUpTo, spaced, pair_if, pairs_shown, numbers_shown, drop_line};

use op_answers::Witness;
use write_bytes::put;
use write_listing::put_decimal;

const SPACE: u8 = b' ';

const NEWLINE: u8 = b'\n';

// A number has at most 20 digits.
fn put_digits(out: &mut [u8], at: usize, n: usize) -> usize
    requires { at + 20 ≤ length out.old }
    ensures { WroteUpTo 20 out.old out.new at (decimal n) result }
{
    put_decimal(out, at, n)
}

fn put_number(out: &mut [u8], at: usize, n: usize) -> usize
    requires { at + 21 ≤ length out.old }
    ensures { WroteUpTo 21 out.old out.new at (spaced n) result }
{
    out[at] = SPACE;
    put_digits(out, at + 1, n)
}

fn put_pair(out: &mut [u8], at: usize, shown: bool, x: usize, y: usize) -> usize
    requires { at + 42 ≤ length out.old }
    ensures { WroteUpTo 42 out.old out.new at (pair_if shown x y) result }
{
    if shown {
        let next = put_number(out, at, x);
        return put_number(out, next, y);
    }
    at
}

// "for each key path one value-equal pair": as many as the witness has.
fn put_pairs(out: &mut [u8], at: usize, w: Witness) -> usize
    requires { at + 168 ≤ length out.old }
    ensures { WroteUpTo 168 out.old out.new at (pairs_shown w) result }
{
    let one = put_pair(out, at, 0 < w.paths, w.x0, w.y0);
    let two = put_pair(out, one, 1 < w.paths, w.x1, w.y1);
    let three = put_pair(out, two, 2 < w.paths, w.x2, w.y2);
    put_pair(out, three, 3 < w.paths, w.x3, w.y3)
}

// "the context node, the two target nodes", and the pairs.
fn put_witness(out: &mut [u8], at: usize, w: Witness) -> usize
    requires { at + 231 ≤ length out.old }
    ensures { WroteUpTo 231 out.old out.new at (numbers_shown (numbers_of w)) result }
{
    let context = put_number(out, at, w.context);
    let first = put_number(out, context, w.first);
    let second = put_number(out, first, w.second);
    put_pairs(out, second, w)
}

// "in its first line, `salvaged` and the number dropped"
pub fn put_salvaged(out: &mut [u8], at: usize, dropped: usize) -> usize
    requires { at + 42 ≤ length out.old }
    ensures { WroteUpTo 42 out.old out.new at (salvaged_line dropped) result }
{
    let word = put(out, at, b"salvaged ");
    let end = put_digits(out, word, dropped);
    out[end] = NEWLINE;
    end + 1
}

// "record, reason"
pub fn put_drop(out: &mut [u8], at: usize, n: usize, reason: usize) -> usize
    requires { at + 42 ≤ length out.old }
    ensures { WroteUpTo 42 out.old out.new at (drop_line n reason) result }
{
    let next = put_digits(out, at, n);
    let end = put_number(out, next, reason);
    out[end] = NEWLINE;
    end + 1
}

// `broken KEY CONTEXT FIRST SECOND X Y ..`
pub fn put_broken(out: &mut [u8], at: usize, key: usize, w: Witness) -> usize
    requires { at + 259 ≤ length out.old }
    ensures { WroteUpTo 259 out.old out.new at (broken_line key (numbers_of w)) result }
{
    let word = put(out, at, b"broken ");
    let number = put_digits(out, word, key);
    let end = put_witness(out, number, w);
    out[end] = NEWLINE;
    end + 1
}
