// The lines that stay, written one after the other with their premises renumbered. "The key numbers that rule 0 cites stay."
ghost use Rattle.std.specs.Prelude.{◌+◌, ◌≤◌, length, drop};
ghost use Rattle.meaning.specs.Records.{record_length, read_line};
ghost use Rattle.write_bytes.specs.Wrote.{Wrote};
ghost use Rattle.rule_needed.specs.Marked.{Known};
ghost use Rattle.write_trimmed.specs.Putting.{moves as moves_of, Renumbered, moved_line, kept_bytes, Puttable, Writable};

use read_record::bodies::LINE_FIELDS;
use read_record::fields::{HEAD_BYTES, word};
use rule_needed::marks::premise_count;
use rule_premises::{FIRST_AT, SECOND_AT};
use rule_stands::stands::{PROOF_LINES, line_body};
use write_bytes::put;
use write_line::{Head, put_head};

// The two premise fields of a line.
#[derive(Clone, Copy, Debug, PartialEq, Eq)]
pub struct Fields {
    pub first: usize,
    pub second: usize,
}

// Of each line the first that derives its key, and of each line its number among those that stay.
#[derive(Clone, Copy)]
struct Moves<'a> {
    firsts: &'a [usize; PROOF_LINES],
    numbers: &'a [usize; PROOF_LINES],
}

fn renumbered(body: &[u8], moves: &Moves) -> Fields
    requires { Known moves.now.firsts.now body.now }
    ensures { Renumbered (moves_of moves.now.firsts.now moves.now.numbers.now) (read_line body.now) result.first result.second }
{
    let first = word(body, FIRST_AT);
    let second = word(body, SECOND_AT);
    let used = premise_count(usize::from(body[0]));
    if used == 0 {
        return Fields { first, second };
    }
    let one = moves.firsts[first];
    if used == 1 {
        return Fields {
            first: moves.numbers[one],
            second,
        };
    }
    let two = moves.firsts[second];
    Fields {
        first: moves.numbers[one],
        second: moves.numbers[two],
    }
}

// A line with its premises renumbered.
fn put_line(out: &mut [u8], at: usize, proof: &[u8], place: usize, moves: &Moves) -> usize
    requires { Puttable proof.now place moves.now.firsts.now × (at + record_length (drop place proof.now) ≤ length out.old) }
    ensures { Wrote out.old out.new at (moved_line moves.now.firsts.now moves.now.numbers.now proof.now place) result }
{
    let body = line_body(proof, place);
    let Fields { first, second } = renumbered(body, moves);
    let head = Head {
        rule: usize::from(body[0]),
        first,
        second,
    };
    let key_at = put_head(out, at, HEAD_BYTES + body.len(), head);
    put(out, key_at, &body[LINE_FIELDS..])
}

pub fn put_lines(
    out: &mut [u8],
    proof: &[u8],
    at: &[usize; PROOF_LINES],
    firsts: &[usize; PROOF_LINES],
    marks: &[bool; PROOF_LINES],
    numbers: &[usize; PROOF_LINES],
    end: usize,
) -> usize
    requires { Writable out.old proof.now at.now firsts.now marks.now numbers.now end }
    ensures { Wrote out.old out.new 0 (kept_bytes proof.now at.now firsts.now marks.now numbers.now (end + 1)) result }
{
    let moves = Moves { firsts, numbers };
    let mut next = 0;
    for n in 0..=end {
        if marks[n] {
            next = put_line(out, next, proof, at[n], &moves);
        }
    }
    next
}
