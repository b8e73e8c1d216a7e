// Parts of bytes, and the records of a file one after the other.
ghost use Rattle.std.specs.Prelude.{◌-◌, ◌≤◌, ◌<◌, length};

use read_record::fields::{BYTE, HEAD_BYTES, KIND_AT};

pub fn byte_at(bytes: &[u8], at: usize) -> usize
    ensures { result < 256 }
{
    bytes.get(at).map_or(0, |&byte| usize::from(byte))
}

// The bytes from one place up to another.
pub fn part(bytes: &[u8], from: usize, to: usize) -> &[u8] {
    if from <= to && to <= bytes.len() {
        &bytes[from..to]
    } else {
        &bytes[..0]
    }
}

// "two bytes, little-endian"; the place is not the last that there is
pub fn word_at(bytes: &[u8], at: usize) -> usize
    ensures { result < 65536 }
{
    byte_at(bytes, at) + BYTE * byte_at(bytes, at.saturating_add(1))
}

// How many bytes the first record has: what its head says; all that are left where that is no record's length.
fn record_size(rest: &[u8]) -> usize
    ensures { (result ≤ length rest.now) × (length rest.now - result ≤ length rest.now - 1) }
{
    let size = word_at(rest, 0);
    if HEAD_BYTES <= size && size <= rest.len() {
        size
    } else {
        rest.len()
    }
}

pub fn first_record(rest: &[u8]) -> &[u8] {
    part(rest, 0, record_size(rest))
}

// What stands behind it: a walk over the records ends.
pub fn after_record(rest: &[u8]) -> &[u8]
    ensures { length result.now ≤ length rest.now - 1 }
{
    &rest[record_size(rest)..]
}

pub fn record_kind(record: &[u8]) -> usize {
    word_at(record, KIND_AT)
}
