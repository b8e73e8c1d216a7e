// Records put together in a lent buffer, from arbitrary bytes: what has no room is left out. Whoever needs to know asks for the room before. What is
// put together here is judged by the readers of the operations, so that nothing is trusted of it.
#![tactic(auto)]

ghost use Rattle.std.specs.Prelude.{◌+◌, ◌≤◌, length};
ghost use Rattle.std.specs.Bool.{Decides};

use read_record::fields::BYTE;
use write_bytes::put;

pub fn has_room(out: &[u8], at: usize, more: usize) -> bool
    ensures { Decides result (at + more ≤ length out.now) }
{
    at <= out.len() && more <= out.len() - at
}

// The bytes as they are; the place behind them.
pub fn append(out: &mut [u8], at: usize, bytes: &[u8]) -> usize {
    if has_room(out, at, bytes.len()) {
        put(out, at, bytes)
    } else {
        at
    }
}

// A number's lowest byte.
pub fn append_byte(out: &mut [u8], at: usize, n: usize) -> usize {
    if at < out.len() {
        out[at] = (n % BYTE) as u8;
        return at + 1;
    }
    at
}

// "two bytes, little-endian"
pub fn append_word(out: &mut [u8], at: usize, n: usize) -> usize {
    let next = append_byte(out, at, n);
    append_byte(out, next, n / BYTE)
}

// "length of the whole record (two bytes, little-endian), kind (two bytes)"; where the body begins
pub fn append_head(out: &mut [u8], at: usize, length: usize, kind: usize) -> usize {
    let next = append_word(out, at, length);
    append_word(out, next, kind)
}
