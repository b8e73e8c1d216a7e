// The lines of a step from inside a branch: ARGUMENT, section 5, "k > n".
ghost use Rattle.meaning.specs.Records.{key_in};
ghost use Rattle.write_step.specs.Fits.{KeyBody};
ghost use Rattle.write_step.specs.Lines.{WroteLines};
ghost use Rattle.write_step.specs.StepFits.{StepFits};
ghost use Rattle.write_step.specs.StepLines.{end_lines_of, empty_lines_of};

use crate::single::{Place, Span, Step, write_along, write_one, write_pair, write_with_empty};
use read_record::limits::{PREFIX_EPSILON, SUBNODES_EPSILON, SUPERKEY};

// "Without e in S .. rule 4: (A', (norm (C++T)[i..n], {P_j})) · rule 3: K i"
pub fn write_end(
    out: &mut [u8],
    place: Place,
    row: &[u8],
    chain: usize,
    node: usize,
    asked: &[u8],
) -> usize
    requires { StepFits out.old place.at 2 place.lines row.now chain node node asked.now }
    ensures { WroteLines out.old out.new place.at (end_lines_of row.now chain (key_in asked.now) node place.lines) result }
{
    let span = Span {
        from: node,
        to: chain,
    };
    let second = write_one(out, place.at, place.lines + 2, row, span);
    write_along(out, second, SUPERKEY, place.lines + 3, row, span, asked)
}

// "rule 3: S_s with e · rule 2: {e, H} · rule 8: {e, P_j} · rule 3: K i"
pub fn write_empty(
    out: &mut [u8],
    place: Place,
    row: &[u8],
    step: Step,
    asked: &[u8],
    cited: &[u8],
) -> usize
    requires { StepFits out.old place.at 4 place.lines row.now step.chain step.node step.spot asked.now × KeyBody cited.now }
    ensures { WroteLines out.old out.new place.at (empty_lines_of row.now step.chain (key_in asked.now) (key_in cited.now) step.node step.spot place.lines) result }
{
    let Place { at, lines } = place;
    let to_spot = Span {
        from: step.node,
        to: step.spot,
    };
    let span = Span {
        from: step.node,
        to: step.chain,
    };
    let second = write_with_empty(out, at, lines + 2, row, to_spot, cited);
    let third = write_pair(out, second, PREFIX_EPSILON, lines + 3, row, to_spot);
    let fourth = write_pair(out, third, SUBNODES_EPSILON, lines + 4, row, span);
    write_along(out, fourth, SUPERKEY, lines + 5, row, span, asked)
}
