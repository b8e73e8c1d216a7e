// Where record n of an input stands ("length of the whole record"), as a part of the caller's bytes: the body lookup and rule 0 use it. It asks
// nothing of the bytes.
#![tactic(auto)]

pub mod walker;

ghost use Rattle.std.specs.Prelude.{◌≡◌, ◌<◌};
ghost use Rattle.meaning.specs.Records.{record_length};
ghost use Rattle.meaning.specs.Operations.{records_from};

use crate::walker::Records;
use read_record::fields::word;

// What the first two bytes say, a missing byte read as 0.
pub fn front_length(l: &[u8]) -> usize
    ensures { result ≡ record_length l.now }
{
    match l {
        [] => 0,
        [only] => usize::from(*only),
        _ => word(l, 0),
    }
}

// What stands from record n on, nothing where the input ends before it: n steps of the record walker. It stops where a step no longer moves, so
// a large n ends at once.
pub fn record_at(input: &[u8], n: usize) -> &[u8]
    ensures { result.now ≡ records_from n input.now }
{
    let mut records = Records::new(input, 0);
    for _ in 0..n {
        if records.next().is_none() {
            break;
        }
    }
    &input[records.at..]
}
