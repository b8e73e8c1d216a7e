// The parts of a key's record, of arbitrary bytes: a part that is not there is empty. A path stands with its length in front of its symbols, so that
// the record order of key paths, "shorter first, equal lengths by bytes", is the order of these bytes.
use program_layout::parts::{byte_at, part, record_kind};
use read_record::bodies::KEY_KIND;
use read_record::fields::HEAD_BYTES;
use read_walker::walker::Records;

// The path at the front, with its length.
pub fn lead(bytes: &[u8]) -> &[u8] {
    part(bytes, 0, 1 + byte_at(bytes, 0))
}

// What stands behind it.
pub fn behind(bytes: &[u8]) -> &[u8] {
    part(bytes, 1 + byte_at(bytes, 0), bytes.len())
}

// A path's symbols.
fn symbols(path: &[u8]) -> &[u8] {
    part(path, 1, path.len())
}

pub fn key_body(record: &[u8]) -> &[u8] {
    part(record, HEAD_BYTES, record.len())
}

pub fn context_of(record: &[u8]) -> &[u8] {
    symbols(lead(key_body(record)))
}

pub fn target_of(record: &[u8]) -> &[u8] {
    symbols(lead(behind(key_body(record))))
}

// The count of key paths and what stands behind it.
pub fn set_of(record: &[u8]) -> &[u8] {
    behind(behind(key_body(record)))
}

// Key path n of a set, with its length.
fn path_in(set: &[u8], n: usize) -> &[u8] {
    let mut rest = part(set, 1, set.len());
    for _ in 0..n {
        rest = behind(rest);
    }
    lead(rest)
}

// A profile from its first key on.
pub fn keys_of(profile: &[u8]) -> &[u8] {
    let mut rest = profile;
    for record in Records::new(profile, 0) {
        if record_kind(record) == KEY_KIND {
            break;
        }
        rest = part(rest, record.len(), rest.len());
    }
    rest
}

// Key path n of all the keys, one key after the other, if there are so many. The labels are left out once, by `keys_of`, and not at each path.
pub fn path_at(keys: &[u8], n: usize) -> Option<&[u8]> {
    let mut left = n;
    for record in Records::new(keys, 0) {
        let set = set_of(record);
        let count = byte_at(set, 0);
        if left < count {
            return Some(path_in(set, left));
        }
        left -= count;
    }
    None
}
