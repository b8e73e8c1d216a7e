// The lines of the answers that carry a witness: the words, then the numbers of the nodes. Nothing that decides anything stands here.
#![tactic(auto)]

use op_answers::{Countered, Refusal, Witness};
use std::io;

// Context, smaller target and larger, then a pair for each key path; there is one key path at least.
fn print_witness(rt: &impl Print, witness: Witness) -> io::Result<()> {
    let pairs = [
        (witness.x0, witness.y0),
        (witness.x1, witness.y1),
        (witness.x2, witness.y2),
        (witness.x3, witness.y3),
    ];
    print!(rt; " {} {} {}", witness.context, witness.first, witness.second)?;
    for &(x, y) in pairs.iter().take(witness.paths.max(1)) {
        print!(rt; " {x} {y}")?;
    }
    println!(rt)
}

// `kept`, `broken Q A B X Y ..`, or the refusal.
pub fn print_keeping(rt: &impl Print, kept: Result<Option<Witness>, Refusal>) -> io::Result<()> {
    match kept {
        Ok(None) => println!(rt; "kept"),
        Ok(Some(witness)) => {
            print!(rt; "broken")?;
            print_witness(rt, witness)
        }
        Err(refusal) => println!(rt; "{refusal}"),
    }
}

// `accepted Q A B X Y ..`, `refused 12 1 KEY witness Q A B X Y ..`, or another refusal.
pub fn print_countering(rt: &impl Print, checked: Result<Witness, Countered>) -> io::Result<()> {
    match checked {
        Ok(witness) => {
            print!(rt; "accepted")?;
            print_witness(rt, witness)
        }
        Err(Countered::Breaks(key, witness)) => {
            print!(rt; "refused 12 1 {key} witness")?;
            print_witness(rt, witness)
        }
        Err(Countered::Refused(refusal)) => println!(rt; "{refusal}"),
    }
}
