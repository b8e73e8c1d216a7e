// A step's first lines, and the lines of a step from a chain node: ARGUMENT, section 5, "k ≤ n". `row` is the asked row of the step's
// spot.
ghost use Rattle.std.specs.Prelude.{◌+◌, ◌-◌, ◌≤◌, length};
ghost use Rattle.meaning.specs.Records.{key_in};
ghost use Rattle.read_record.specs.BodyParts.{paths_of};
ghost use Rattle.write_step.specs.Fits.{KeyBody};
ghost use Rattle.write_step.specs.Lines.{WroteLines};
ghost use Rattle.write_step.specs.RowKeys.{SmallSet, UnitedBytes};
ghost use Rattle.write_step.specs.StepFits.{OpeningFits, StepFits};
ghost use Rattle.write_step.specs.StepLines.{opening_of, united_by, meeting_lines_of, chain_lines_of};

use crate::single::{Place, Span, Step, write_along, write_fronted, write_of_key, write_part};
use read_record::keys::{context, count, holds_empty, paths, target};
use read_record::limits::{
    CITATION, CONTEXT_PATH, CONTEXT_TARGET, INTERACTION, NO_NUMBER, PREFIX_EPSILON, SUPERKEY,
    TARGET_PATH,
};
use write_bytes::put;
use write_line::Head;
use write_set::{Set, UNITED_BYTES, unite_beyond};

// "rule 0: s · rule 5: (A', (T_s, S_s)) · rule 6: (A', (norm line j [i..k], S_s))"
pub fn write_opening(
    out: &mut [u8],
    place: Place,
    row: &[u8],
    cited: &[u8],
    key: usize,
    node: usize,
    spot: usize,
) -> usize
    requires { OpeningFits out.old place.at place.lines row.now cited.now node spot }
    ensures { WroteLines out.old out.new place.at (opening_of row.now (key_in cited.now) key node spot place.lines) result }
{
    let Place { at, lines } = place;
    let aim = target(cited);
    let second = write_of_key(out, at, CITATION, key, context(cited), aim, cited);
    let third = write_of_key(out, second, CONTEXT_PATH, lines, &row[..node], aim, cited);
    let span = Span {
        from: node,
        to: spot,
    };
    write_along(out, third, TARGET_PATH, lines + 1, row, span, cited)
}

// "U = S united with S'"; "Without e, U = S"
fn united_set(buffer: &mut [u8], asked: &[u8], cited: &[u8], front: usize) -> Set
    requires { KeyBody asked.now × KeyBody cited.now × (128 ≤ length buffer.old) }
    ensures { SmallSet buffer.old buffer.new result.count result.used (united_by (key_in asked.now) (key_in cited.now) front) }
{
    let many = count(asked);
    let set = paths(asked);
    if holds_empty(asked) {
        return unite_beyond(buffer, many, set, front, count(cited), paths(cited));
    }
    let used = put(buffer, 0, set);
    Set { count: many, used }
}

// "rule 3: (A', (norm (C++T)[i..k], F.U)) · from K h by rule 7: (norm (C++T)[0..k], (F, S)) · rule 3: (.., (F, U))": the two
// keys that rule 9 joins meet at the spot.
fn write_meeting(
    out: &mut [u8],
    place: Place,
    row: &[u8],
    step: Step,
    asked: &[u8],
    many: usize,
    united: &[u8],
) -> usize
    requires { StepFits out.old place.at 3 place.lines row.now step.chain step.node step.spot asked.now × (step.spot ≤ step.chain) × UnitedBytes many united.now }
    ensures { WroteLines out.old out.new place.at (meeting_lines_of row.now step.chain (key_in asked.now) (paths_of many united.now) step.node step.spot place.lines) result }
{
    let lines = place.lines;
    let second = write_fronted(out, place.at, lines + 2, row, step, many, united);
    let span = Span {
        from: step.spot,
        to: step.chain,
    };
    let third = write_along(out, second, CONTEXT_TARGET, lines - 1, row, span, asked);
    let head = Head {
        rule: SUPERKEY,
        first: lines + 4,
        second: NO_NUMBER,
    };
    write_part(out, third, head, row, span, many, united)
}

// "rule 9 of the two: (A', (norm (C++T)[i..n], U)) · with e in S, rule 2: K i"
fn write_chain_lines(
    out: &mut [u8],
    place: Place,
    row: &[u8],
    step: Step,
    asked: &[u8],
    many: usize,
    united: &[u8],
) -> usize
    requires { StepFits out.old place.at 5 place.lines row.now step.chain step.node step.spot asked.now × (step.spot ≤ step.chain) × UnitedBytes many united.now }
    ensures { WroteLines out.old out.new place.at (chain_lines_of row.now step.chain (key_in asked.now) (paths_of many united.now) step.node step.spot place.lines) result }
{
    let lines = place.lines;
    let next = write_meeting(out, place, row, step, asked, many, united);
    let head = Head {
        rule: INTERACTION,
        first: lines + 3,
        second: lines + 5,
    };
    let span = Span {
        from: step.node,
        to: step.chain,
    };
    let last = write_part(out, next, head, row, span, many, united);
    if holds_empty(asked) {
        return write_along(out, last, PREFIX_EPSILON, lines + 6, row, span, asked);
    }
    last
}

// The lines of a step from a chain node.
pub fn write_chain(
    out: &mut [u8],
    place: Place,
    row: &[u8],
    step: Step,
    asked: &[u8],
    cited: &[u8],
) -> usize
    requires { StepFits out.old place.at 5 place.lines row.now step.chain step.node step.spot asked.now × (step.spot ≤ step.chain) × KeyBody cited.now }
    ensures { WroteLines out.old out.new place.at (chain_lines_of row.now step.chain (key_in asked.now) (united_by (key_in asked.now) (key_in cited.now) (step.chain - step.spot)) step.node step.spot place.lines) result }
{
    let mut buffer = [0u8; UNITED_BYTES];
    let set = united_set(&mut buffer, asked, cited, step.chain - step.spot);
    write_chain_lines(out, place, row, step, asked, set.count, &buffer[..set.used])
}
