// The records of the keys that stay, one behind the other.
ghost use Rattle.std.specs.Prelude.{◌+◌, ◌≤◌, ◌<◌, ◌≡◌, length, take};
ghost use Rattle.meaning.specs.Reduction.{staying};
ghost use Rattle.theory_records.specs.KeyPlaces.{keys_from};
ghost use Rattle.write_chosen.specs.Choosing.{PutIf, Choosable, Chose};

use read_walker::front_length;
use write_bytes::put;

// "profile .. 64 keys"
pub const PROFILE_KEYS: usize = 64;

// Where the records end, and how many there are.
#[derive(Clone, Copy, Debug, PartialEq, Eq)]
pub struct Chosen {
    pub end: usize,
    pub count: usize,
}

// One record more, where its key stays.
fn put_if(out: &mut [u8], chosen: Chosen, bytes: &[u8], stays: bool) -> Chosen
    requires { (chosen.end + length bytes.now ≤ length out.old) × (chosen.count < 64) }
    ensures { PutIf out.old out.new chosen bytes.now stays result }
{
    if !stays {
        return chosen;
    }
    let end = put(out, chosen.end, bytes);
    Chosen {
        end,
        count: chosen.count + 1,
    }
}

// The records of the part's first keys that stay, written from a place on.
pub fn put_chosen(
    out: &mut [u8],
    at: usize,
    part: &[u8],
    keys: usize,
    stays: [bool; PROFILE_KEYS],
) -> Chosen
    requires { Choosable out.old at part.now keys × (length stays ≡ 64) }
    ensures { Chose out.old out.new at (staying (take keys stays) (keys_from keys part.now)) result }
{
    let mut rest = part;
    let mut chosen = Chosen { end: at, count: 0 };
    for n in 0..keys {
        let end = front_length(rest);
        chosen = put_if(out, chosen, &rest[..end], stays[n]);
        rest = &rest[end..];
    }
    chosen
}
