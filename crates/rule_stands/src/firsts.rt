// "keeps of several lines with equal keys only the earliest, points premises there"
ghost use Rattle.std.specs.Prelude.{suc};
ghost use Rattle.rule_stands.specs.Standing.{Standing};
ghost use Rattle.rule_stands.specs.Pointing.{FirstOf, Pointing};

use crate::stands::{PROOF_LINES, line_body};
use read_record::bodies::LINE_FIELDS;

// The earliest line that has the key of line n: equal keys are equal bodies.
fn first_of(proof: &[u8], at: &[usize; PROOF_LINES], n: usize) -> usize
    requires { Standing (suc n) proof.now at.now }
    ensures { FirstOf proof.now n result }
{
    let own = line_body(proof, at[n]);
    for i in 0..n {
        let other = line_body(proof, at[i]);
        if &other[LINE_FIELDS..] == &own[LINE_FIELDS..] {
            return i;
        }
    }
    n
}

pub fn find_firsts(proof: &[u8], at: &[usize; PROOF_LINES], count: usize) -> [usize; PROOF_LINES]
    requires { Standing count proof.now at.now }
    ensures { Pointing count count proof.now result }
{
    let mut found = [0usize; PROOF_LINES];
    for n in 0..count {
        found[n] = first_of(proof, at, n);
    }
    found
}
