// The frame of a case, as tests/reference/stream.rs writes it: operation (1 byte); number, room and three lengths (4 bytes each, little-endian); then
// the three inputs, one behind the other.
ghost use Rattle.std.specs.Prelude.{◌+◌, ◌≤◌, ◌<◌};

use program_files::read_full;
use std::io;
use std::io::Read;

// Where each number of the head stands; the operation stands at 0.
const NUMBER: usize = 1;

const ROOM: usize = 5;

const FIRST_LENGTH: usize = 9;

const SECOND_LENGTH: usize = 13;

const THIRD_LENGTH: usize = 17;

const HEAD_BYTES: usize = 21;

// A case without its inputs' bytes: the first input begins at 0, and `end` is where the third ends.
#[derive(Clone, Copy, Debug, PartialEq, Eq)]
pub struct Case {
    pub operation: u8,
    pub number: usize,
    pub room: usize,
    pub second: usize,
    pub third: usize,
    pub end: usize,
}

// The number of four bytes, little-endian, at a place of the head.
fn number_at(head: &[u8; HEAD_BYTES], at: usize) -> usize
    requires { at + 4 ≤ 21 }
    ensures { result < 4294967296 }
{
    u32::from_le_bytes([head[at], head[at + 1], head[at + 2], head[at + 3]]) as usize
}

fn case_of(head: &[u8; HEAD_BYTES]) -> Case {
    let second = number_at(head, FIRST_LENGTH);
    let third = second + number_at(head, SECOND_LENGTH);
    Case {
        operation: head[0],
        number: number_at(head, NUMBER),
        room: number_at(head, ROOM),
        second,
        third,
        end: third + number_at(head, THIRD_LENGTH),
    }
}

// Reads the head of the next case, if there is one.
pub fn read_case(reader: &mut impl Read) -> io::Result<Option<Case>> {
    let mut head = [0u8; HEAD_BYTES];
    if read_full(reader, &mut head)? < HEAD_BYTES {
        return Ok(None);
    }
    Ok(Some(case_of(&head)))
}

// Puts a case's inputs, which are so many bytes, at the start of the space. False where they do not fit, or the stream breaks off.
pub fn read_inputs(reader: &mut impl Read, end: usize, space: &mut [u8]) -> io::Result<bool> {
    if end > space.len() {
        return Ok(false);
    }
    Ok(read_full(reader, &mut space[..end])? == end)
}

// One input: the bytes of the space from a place up to another. Both lie in it, since the inputs were read.
pub fn input(space: &[u8], from: usize, to: usize) -> &[u8] {
    space.get(from..to).unwrap_or(space)
}
