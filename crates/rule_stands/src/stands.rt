// Where the lines of an accepted proof stand: looked up once, so that no look-up walks from the front.
ghost use Rattle.std.specs.Prelude.{◌≡◌, [], drop};
ghost use Rattle.meaning.specs.Records.{record_body};
ghost use Rattle.meaning.specs.Operations.{records_from};
ghost use Rattle.rule_stands.specs.Standing.{Proved, Standing, LineThere};

use read_record::fields::{HEAD_BYTES, word};

// "proof .. 256 lines"
pub const PROOF_LINES: usize = 256;

// The place of each line in the proof, and how many there are.
#[derive(Clone, Copy, Debug, PartialEq, Eq)]
pub struct Stands {
    pub at: [usize; PROOF_LINES],
    pub count: usize,
}

pub fn find_lines(proof: &[u8]) -> Stands
    requires { Proved proof.now }
    ensures { Standing result.count proof.now result.at × (records_from result.count proof.now ≡ []) }
{
    let mut at = [0usize; PROOF_LINES];
    let mut place = 0;
    let mut n = 0;
    while place < proof.len() {
        at[n] = place;
        place += word(proof, place);
        n += 1;
    }
    Stands { at, count: n }
}

// The body of the line at a place.
pub fn line_body(proof: &[u8], place: usize) -> &[u8]
    requires { LineThere proof.now place }
    ensures { result.now ≡ record_body (drop place proof.now) }
{
    let end = place + word(proof, place);
    &proof[place + HEAD_BYTES..end]
}
