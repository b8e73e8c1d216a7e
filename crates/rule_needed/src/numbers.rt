// "and renumbers": a line's new number is how many lines before it stay.
ghost use Rattle.std.specs.Prelude.{◌≡◌, cond, ◌+◌, ◌<◌};
ghost use Rattle.rule_needed.specs.Numbering.{NumberedTo};

use rule_stands::stands::PROOF_LINES;

fn next_number(next: usize, mark: bool) -> usize
    requires { next < 256 }
    ensures { result ≡ cond mark (next + 1) next }
{
    if mark { next + 1 } else { next }
}

pub fn find_numbers(marks: &[bool; PROOF_LINES], end: usize) -> [usize; PROOF_LINES]
    requires { end < 256 }
    ensures { NumberedTo (end + 1) marks.now result }
{
    let mut found = [0usize; PROOF_LINES];
    let mut next = 0;
    for n in 0..end + 1 {
        found[n] = next;
        next = next_number(next, marks[n]);
    }
    found
}
