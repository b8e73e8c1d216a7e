// A whole profile: its size, then its labels and its keys from the front.
ghost use Rattle.std.specs.Prelude.{◌≡◌, ◌≤◌, length};
ghost use Rattle.meaning.specs.Refusals.{has_edition};
ghost use Rattle.read_entry.specs.Agree.{is_label_record};
ghost use Rattle.read_inputs.specs.ProfileWalks.{EntriesTold};
ghost use Rattle.read_inputs.specs.Accepted.{ProfileTold};

use read_entry::labels::good_label;
use read_judged::{Fault, RefusalKind};
use read_profile_keys::read_keys;
use read_record::bodies::{EDITION_KIND, LABEL_KIND, whole};
use read_record::fields::{HEAD_BYTES, KIND_AT, word};

// "profile 16,384 bytes"
const PROFILE_BYTES: usize = 16384;
// Where number and class stand in a label's record
const NUMBER_IN_RECORD: usize = 4;

const CLASS_IN_RECORD: usize = 5;
// "a record of kind 6, one byte, 2"
const EDITION_IN_RECORD: usize = 4;

const EDITION_BYTES: usize = 5;

const SECOND_EDITION: u8 = 2;

// What an accepted profile says: the class of each label (0: not declared), whether it is of edition 2, how many records stand before the keys, and
// how many keys there are.
#[derive(Clone, Copy)]
pub struct Profile {
    pub classes: [u8; 256],
    pub second: bool,
    pub before: usize,
    pub keys: usize,
}

// A whole label's record stands at the front.
fn is_label_record(rest: &[u8]) -> bool
    ensures { result ≡ is_label_record rest.now }
{
    if !whole(rest) {
        return false;
    }
    word(rest, KIND_AT) == LABEL_KIND
}

// "A profile is labels, numbers ascending, then keys.": the records of a profile of that edition within its size, from record number `first` on.
fn read_entries(bytes: &[u8], first: usize, second: bool) -> Result<Profile, Fault>
    requires { (length bytes.now ≤ 16384) × (first ≤ 1) }
    ensures { EntriesTold first bytes.now second result }
{
    let mut classes = [0u8; 256];
    let mut rest = bytes;
    let mut labels = 0;
    let mut last = 0;
    // Stays a `while`: because it ends at the first record that is no label.
    while is_label_record(rest) {
        let end = word(rest, 0);
        if !good_label(bytes, labels, last, &rest[HEAD_BYTES..end]) {
            return Err(Fault {
                kind: RefusalKind::BadLabel,
                place: first + labels,
            });
        }
        last = usize::from(rest[NUMBER_IN_RECORD]);
        classes[last] = rest[CLASS_IN_RECORD];
        rest = &rest[end..];
        labels += 1;
    }
    let before = first + labels;
    match read_keys(rest, &classes) {
        Err(fault) => Err(Fault {
            kind: fault.kind,
            place: before + fault.place,
        }),
        Ok(keys) => Ok(Profile {
            classes,
            second,
            before,
            keys,
        }),
    }
}

// "A profile of edition 2 begins with a record of kind 6"
fn is_edition_record(bytes: &[u8]) -> bool
    ensures { result ≡ has_edition bytes.now }
{
    if !whole(bytes) {
        return false;
    }
    word(bytes, KIND_AT) == EDITION_KIND
}

// Input 1, a profile: its size, the edition's record, then its records from the front.
pub fn read_profile(bytes: &[u8]) -> Result<Profile, Fault>
    ensures { ProfileTold bytes.now result }
{
    if PROFILE_BYTES < bytes.len() {
        return Err(Fault {
            kind: RefusalKind::TooLarge,
            place: 0,
        });
    }
    if !is_edition_record(bytes) {
        return read_entries(bytes, 0, false);
    }
    if bytes[EDITION_IN_RECORD] != SECOND_EDITION {
        return Err(Fault {
            kind: RefusalKind::BadLabel,
            place: 0,
        });
    }
    read_entries(&bytes[EDITION_BYTES..], 1, true)
}
