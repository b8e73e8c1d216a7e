// The keys of a profile, from the first record that is no label's on.
#![tactic(auto)]

ghost use Rattle.std.specs.Prelude.{◌≡◌, false};
ghost use Rattle.read_entry.specs.Agree.{is_label_record};
ghost use Rattle.read_profile_keys.specs.KeyWalks.{KeysTold};

use read_entry::keys::judge_key;
use read_entry::repeats::part_used;
use read_judged::{Fault, RefusalKind, at_record};
use read_record::fields::{HEAD_BYTES, word};

// How many keys there are; or the first fault, whose place counts the keys before it. 15, "two equal keys", is asked of a key with no fault of its
// own.
pub fn read_keys(bytes: &[u8], classes: &[u8; 256]) -> Result<usize, Fault>
    requires { is_label_record bytes.now ≡ false }
    ensures { KeysTold classes.now bytes.now result }
{
    let mut rest = bytes;
    let mut keys = 0;
    // Stays a `while`: because a record is judged before its end is known, and its number is the place of a refusal.
    while !rest.is_empty() {
        at_record(judge_key(rest, keys, classes), keys)?;
        let end = word(rest, 0);
        if part_used(bytes, keys, HEAD_BYTES, &rest[HEAD_BYTES..end]) {
            return Err(Fault {
                kind: RefusalKind::KeyTwice,
                place: keys,
            });
        }
        rest = &rest[end..];
        keys += 1;
    }
    Ok(keys)
}
