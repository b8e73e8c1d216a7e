// "removes lines from which that line is not reached through premises": from the end down, each line that stays marks the lines it points to.
ghost use Rattle.std.specs.Prelude.{◌≡◌, false, true, ◌-◌, ◌<◌, get_or};
ghost use Rattle.meaning.specs.Records.{read_line};
ghost use Rattle.theory_trim.specs.Marks.{Marking};
ghost use Rattle.rule_premises.specs.Premises.{lines_from};
ghost use Rattle.rule_needed.specs.Marked.{premise_count, points_to, marked, marked_if, Known, Linked};

use read_record::fields::word;
use read_record::limits::{CITATION, EPSILON, INTERACTION, ONE_ATTRIBUTE};
use rule_premises::{FIRST_AT, SECOND_AT};
use rule_stands::stands::{PROOF_LINES, line_body};

// How many premises a rule has: none for 0, which cites a key of the profile, 1 and 10; two for 9.
#[tactic(auto, using(crate::specs::Marked::counts))]
pub fn premise_count(rule: usize) -> usize
    ensures { result ≡ premise_count rule }
{
    match rule {
        CITATION | EPSILON | ONE_ATTRIBUTE => 0,
        INTERACTION => 2,
        _ => 1,
    }
}

// The lines that a line's premises point to.
fn mark_premises(marks: &mut [bool; PROOF_LINES], firsts: &[usize; PROOF_LINES], body: &[u8])
    requires { Known firsts.now body.now }
    ensures { marks.new ≡ marked (points_to firsts.now (read_line body.now)) marks.old }
{
    let used = premise_count(usize::from(body[0]));
    if used == 0 {
        return;
    }
    marks[firsts[word(body, FIRST_AT)]] = true;
    if used == 1 {
        return;
    }
    marks[firsts[word(body, SECOND_AT)]] = true;
}

// Line n, with this body: where it is marked it stays, and marks.
#[tactic(auto, unfolding(crate::specs::Marked::marked_if))]
fn mark_line(marks: &mut [bool; PROOF_LINES], n: usize, firsts: &[usize; PROOF_LINES], body: &[u8])
    requires { (n < 256) × Known firsts.now body.now }
    ensures { marks.new ≡ marked_if (get_or marks.old n false) (points_to firsts.now (read_line body.now)) marks.old }
{
    if marks[n] {
        mark_premises(marks, firsts, body);
    }
}

// The lines that stay: the end, which is the earliest line with the last line's key, and those from which it is reached.
pub fn find_needed(
    proof: &[u8],
    at: &[usize; PROOF_LINES],
    firsts: &[usize; PROOF_LINES],
    count: usize,
) -> [bool; PROOF_LINES]
    requires { Linked count proof.now at.now firsts.now }
    ensures { Marking (lines_from count proof.now) (get_or firsts.now (count - 1) 0) 0 result }
{
    let last = count - 1;
    let end = firsts[last];
    let mut marks = [false; PROOF_LINES];
    marks[end] = true;
    for n in (0..end + 1).rev() {
        mark_line(&mut marks, n, firsts, line_body(proof, at[n]));
    }
    marks
}
