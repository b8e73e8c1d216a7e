// One proof line with a set that is made for it. `row` is a row of the asked key (ARGUMENT, section 4).
ghost use Rattle.std.specs.Prelude.{[], ◌∷◌, ◌<◌, length};
ghost use Rattle.meaning.specs.Rules.{with_empty};
ghost use Rattle.meaning.specs.Records.{key_in};
ghost use Rattle.read_record.specs.BodyParts.{paths_of};
ghost use Rattle.write_set.specs.Fronts.{in_front};
ghost use Rattle.theory_derive.specs.Sets.{insert};
ghost use Rattle.theory_derive.specs.Written.{key_of, two_line, one_line};
ghost use Rattle.write_step.specs.Fits.{KeyBody, OfKeyFits};
ghost use Rattle.write_step.specs.Lines.{WroteLines};
ghost use Rattle.write_step.specs.RowKeys.{between, key_along, PartRoom, FrontRoom, SetFits, UnitedBytes};

use read_record::keys::{count, paths};
use read_record::limits::{NO_NUMBER, SUBNODES, SUPERKEY};
use write_bytes::put;
use write_line::{Head, put_number, put_path, write_line};
use write_set::{SET_BYTES, UNITED_BYTES, insert_path, put_front};

// The part of the asked row from one symbol up to another: a line's target; its context stands before.
#[derive(Clone, Copy, Debug, PartialEq, Eq)]
pub struct Span {
    pub from: usize,
    pub to: usize,
}

// Where a step's lines are written, and how many proof lines stand before them.
#[derive(Clone, Copy, Debug, PartialEq, Eq)]
pub struct Place {
    pub at: usize,
    pub lines: usize,
}

// A step from `spot` up to chain node `node`; the chain, C and T, has so many symbols.
#[derive(Clone, Copy, Debug, PartialEq, Eq)]
pub struct Step {
    pub chain: usize,
    pub node: usize,
    pub spot: usize,
}

// A line with the key paths of a key.
pub fn write_of_key(
    out: &mut [u8],
    at: usize,
    rule: usize,
    first: usize,
    context: &[u8],
    target: &[u8],
    body: &[u8],
) -> usize
    requires { OfKeyFits out.old at rule context.now target.now body.now }
    ensures { WroteLines out.old out.new at (one_line rule first (key_of context.now target.now (key_in body.now).paths) ∷ []) result }
{
    let head = Head {
        rule,
        first,
        second: NO_NUMBER,
    };
    write_line(out, at, head, context, target, count(body), paths(body))
}

// A line whose context and target are read off the asked row: up to `from`, and from there up to `to`.
pub fn write_part(
    out: &mut [u8],
    at: usize,
    head: Head,
    row: &[u8],
    span: Span,
    many: usize,
    set: &[u8],
) -> usize
    requires { (head.rule < 256) × PartRoom out.old at row.now span.from span.to × SetFits many set.now }
    ensures { WroteLines out.old out.new at (two_line head.rule head.first head.second (key_along row.now span.from span.to (paths_of many set.now)) ∷ []) result }
{
    let Span { from, to } = span;
    write_line(out, at, head, &row[..from], &row[from..to], many, set)
}

// Such a line with the key paths of a key.
pub fn write_along(
    out: &mut [u8],
    at: usize,
    rule: usize,
    first: usize,
    row: &[u8],
    span: Span,
    body: &[u8],
) -> usize
    requires { (rule < 256) × PartRoom out.old at row.now span.from span.to × KeyBody body.now }
    ensures { WroteLines out.old out.new at (one_line rule first (key_along row.now span.from span.to (key_in body.now).paths) ∷ []) result }
{
    let head = Head {
        rule,
        first,
        second: NO_NUMBER,
    };
    write_part(out, at, head, row, span, count(body), paths(body))
}

// "rule 4": the rest of the row is the one key path.
pub fn write_one(out: &mut [u8], at: usize, first: usize, row: &[u8], span: Span) -> usize
    requires { PartRoom out.old at row.now span.from span.to }
    ensures { WroteLines out.old out.new at (one_line 4 first (key_along row.now span.from span.to (between span.to (length row.now) row.now ∷ [])) ∷ []) result }
{
    let mut one = [0u8; 32];
    let used = put_path(&mut one, 0, &row[span.to..]);
    let head = Head {
        rule: SUBNODES,
        first,
        second: NO_NUMBER,
    };
    write_part(out, at, head, row, span, 1, &one[..used])
}

// A line with the set {empty, the rest of the row}.
pub fn write_pair(
    out: &mut [u8],
    at: usize,
    rule: usize,
    first: usize,
    row: &[u8],
    span: Span,
) -> usize
    requires { (rule < 256) × PartRoom out.old at row.now span.from span.to }
    ensures { WroteLines out.old out.new at (one_line rule first (key_along row.now span.from span.to (with_empty (between span.to (length row.now) row.now))) ∷ []) result }
{
    let mut buffer = [0u8; UNITED_BYTES];
    let behind = put_number(&mut buffer, 0, 0);
    let set = insert_path(&mut buffer, 1, behind, &row[span.to..]);
    let head = Head {
        rule,
        first,
        second: NO_NUMBER,
    };
    write_part(out, at, head, row, span, set.count, &buffer[..set.used])
}

// "rule 3: S_s with e"
pub fn write_with_empty(
    out: &mut [u8],
    at: usize,
    first: usize,
    row: &[u8],
    span: Span,
    body: &[u8],
) -> usize
    requires { PartRoom out.old at row.now span.from span.to × KeyBody body.now }
    ensures { WroteLines out.old out.new at (one_line 3 first (key_along row.now span.from span.to (insert [] (key_in body.now).paths)) ∷ []) result }
{
    let mut buffer = [0u8; UNITED_BYTES];
    let bytes = paths(body);
    let behind = put(&mut buffer, 0, bytes);
    let set = insert_path(&mut buffer, count(body), behind, &bytes[..0]);
    let head = Head {
        rule: SUPERKEY,
        first,
        second: NO_NUMBER,
    };
    write_part(out, at, head, row, span, set.count, &buffer[..set.used])
}

// "rule 3: (A', (norm (C++T)[i..k], F.U))": F, the line from the spot up to t, in front of each key path.
pub fn write_fronted(
    out: &mut [u8],
    at: usize,
    first: usize,
    row: &[u8],
    step: Step,
    many: usize,
    set: &[u8],
) -> usize
    requires { PartRoom out.old at row.now step.node step.spot × FrontRoom row.now step.spot step.chain × UnitedBytes many set.now }
    ensures { WroteLines out.old out.new at (one_line 3 first (key_along row.now step.node step.spot (in_front (between step.spot step.chain row.now) (paths_of many set.now))) ∷ []) result }
{
    let mut buffer = [0u8; SET_BYTES];
    let used = put_front(&mut buffer, &row[step.spot..step.chain], many, set);
    let head = Head {
        rule: SUPERKEY,
        first,
        second: NO_NUMBER,
    };
    let span = Span {
        from: step.node,
        to: step.spot,
    };
    write_part(out, at, head, row, span, many, &buffer[..used])
}
