// The proof that the decider writes: ARGUMENT, section 5. "Take every remembered step, last first".
// Stays: buffer and place go in and the next place comes out, because a struct that holds the `&mut` owes in each function that it holds it still, and is
// no plainer.
#![tactic(auto)]

ghost use Rattle.std.specs.Prelude.{◌≡◌, [], ◌∷◌, ◌+◌, ◌≤◌, ◌<◌, length, cond, ltb};
ghost use Rattle.meaning.specs.Records.{key_in};
ghost use Rattle.meaning.specs.Pattern.{t_of};
ghost use Rattle.theory_pattern.specs.Spots.{chain_of, row_of};
ghost use Rattle.theory_derive.specs.Written.{step_lines, first_line};
ghost use Rattle.step_search.specs.Finding.{steps_below};
ghost use Rattle.step_search.specs.Ranges.{step_of};
ghost use Rattle.write_bytes.specs.Wrote.{Wrote};
ghost use Rattle.write_step.specs.Fits.{KeyBody};
ghost use Rattle.write_step.specs.Lines.{WroteLines};
ghost use Rattle.write_proof.specs.Asks.{AskedRow, OnRow, SpotReady, StepRoom, TakenReady, ProofReady};
ghost use Rattle.write_proof.specs.Sizes.{size_of};
ghost use Rattle.write_proof.specs.Cited.{step_on, taken_by, proof_by};

use read_record::fields::HEAD_BYTES;
use read_record::keys::{context, holds_empty, path, target};
use read_record::limits::{CONTEXT_TARGET, EPSILON, NO_NUMBER, ONE_ATTRIBUTE};
use read_walker::{front_length, record_at};
use step_search::firing::Taken;
use step_search::search::MOST_STEPS;
use write_bytes::put;
use write_step::branch::{write_empty, write_end};
use write_step::chain::{write_chain, write_opening};
use write_step::single::{Place, Step, write_of_key};

// How many lines a step has: from a chain node, with the empty path in S and without; from inside a branch.
const CHAIN_EMPTY_LINES: usize = 8;

const CHAIN_LINES: usize = 7;

const BRANCH_EMPTY_LINES: usize = 7;

const BRANCH_LINES: usize = 5;
// "line j = C ++ T ++ P_j (at most 24 symbols)"
const LINE_SYMBOLS: usize = 24;

// Line j of the asked key.
fn put_asked(row: &mut [u8], asked: &[u8], branch: usize) -> usize
    requires { AskedRow row.old asked.now branch }
    ensures { Wrote row.old row.new 0 (row_of (key_in asked.now) branch) result }
{
    let target_at = put(row, 0, context(asked));
    let path_at = put(row, target_at, target(asked));
    put(row, path_at, path(asked, branch))
}

// The lines of a step whose line is given.
fn write_on(
    out: &mut [u8],
    place: Place,
    row: &[u8],
    asked: &[u8],
    cited: &[u8],
    taken: Taken,
) -> usize
    requires { OnRow out.old place.at place.lines row.now asked.now cited.now taken.node taken.spot }
    ensures { WroteLines out.old out.new place.at (step_on row.now (key_in asked.now) (key_in cited.now) taken.key taken.node taken.spot place.lines) result }
{
    let chain = context(asked).len() + target(asked).len();
    let Taken {
        key,
        node,
        spot,
        ..
    } = taken;
    let behind = Place {
        at: write_opening(out, place, row, cited, key, node, spot),
        lines: place.lines,
    };
    let step = Step { chain, node, spot };
    if spot <= chain {
        return write_chain(out, behind, row, step, asked, cited);
    }
    if holds_empty(asked) {
        return write_empty(out, behind, row, step, asked, cited);
    }
    write_end(out, behind, row, chain, node, asked)
}

// The lines of a step with the cited key's body.
fn write_step(out: &mut [u8], place: Place, asked: &[u8], cited: &[u8], taken: Taken) -> usize
    requires { SpotReady asked.now cited.now taken.node taken.branch taken.spot × StepRoom out.old place.at place.lines }
    ensures { WroteLines out.old out.new place.at (step_lines (key_in asked.now) (key_in cited.now) taken.key taken.node taken.branch taken.spot place.lines) result }
{
    let mut row = [0u8; LINE_SYMBOLS];
    let end = put_asked(&mut row, asked, taken.branch);
    write_on(out, place, &row[..end], asked, cited, taken)
}

// The lines of a remembered step: key number s is record labels + s, where so many records stand before the keys.
fn write_taken(
    out: &mut [u8],
    place: Place,
    profile: &[u8],
    labels: usize,
    asked: &[u8],
    step: Taken,
) -> usize
    requires { TakenReady profile.now labels asked.now (step_of step) × StepRoom out.old place.at place.lines }
    ensures { WroteLines out.old out.new place.at (taken_by profile.now labels (key_in asked.now) (step_of step) place.lines) result }
{
    let rest = record_at(profile, labels + step.key);
    let end = front_length(rest);
    write_step(out, place, asked, &rest[HEAD_BYTES..end], step)
}

// How many lines a step has.
fn step_size(asked: &[u8], spot: usize) -> usize
    requires { KeyBody asked.now }
    ensures { result ≡ size_of (key_in asked.now) spot }
{
    let chain = context(asked).len() + target(asked).len();
    match (spot <= chain, holds_empty(asked)) {
        (true, true) => CHAIN_EMPTY_LINES,
        (true, false) => CHAIN_LINES,
        (false, true) => BRANCH_EMPTY_LINES,
        (false, false) => BRANCH_LINES,
    }
}

// Where the loop ended above t, t is an attribute alone, and rule 10 has no premise either.
fn first_rule(u: usize, end: usize) -> usize
    ensures { result ≡ cond (ltb u end) 10 1 }
{
    if u < end { ONE_ATTRIBUTE } else { EPSILON }
}

// K u over the line from root to t.
fn write_split(out: &mut [u8], row: &[u8], u: usize, asked: &[u8]) -> usize
    requires { KeyBody asked.now × (256 ≤ length out.old) × (row.now ≡ chain_of (key_in asked.now)) × (u ≤ length row.now) }
    ensures { WroteLines out.old out.new 0 (first_line (key_in asked.now) u ∷ []) result }
{
    let rule = first_rule(u, row.len());
    write_of_key(out, 0, rule, NO_NUMBER, &row[..u], &row[u..], asked)
}

// The first line, K u: its target is empty where u is t, else the attribute t alone.
fn write_first(out: &mut [u8], asked: &[u8], u: usize) -> usize
    requires { KeyBody asked.now × (256 ≤ length out.old) × (u ≤ t_of (key_in asked.now)) }
    ensures { WroteLines out.old out.new 0 (first_line (key_in asked.now) u ∷ []) result }
{
    let mut row = [0u8; LINE_SYMBOLS];
    let next = put(&mut row, 0, context(asked));
    let end = put(&mut row, next, target(asked));
    write_split(out, &row[..end], u, asked)
}

// The proof, from the front of the buffer; the bytes used.
pub fn write_proof(
    out: &mut [u8],
    profile: &[u8],
    labels: usize,
    asked: &[u8],
    u: usize,
    steps: [Taken; MOST_STEPS],
    count: usize,
) -> usize
    requires { ProofReady out.old profile.now labels asked.now u steps count }
    ensures { WroteLines out.old out.new 0 (proof_by profile.now labels (key_in asked.now) u (steps_below steps count)) result }
{
    let mut place = Place {
        at: write_first(out, asked, u),
        lines: 1,
    };
    for n in (0..count).rev() {
        let step = steps[n];
        place.at = write_taken(out, place, profile, labels, asked, step);
        place.lines += step_size(asked, step.spot);
    }
    write_of_key(
        out,
        place.at,
        CONTEXT_TARGET,
        place.lines - 1,
        context(asked),
        target(asked),
        asked,
    )
}
