// Answers a stream of cases over `path_words` on standard input, a line for each: `1` yes, `0` no. tests/path_vectors.rs makes the stream and, from
// the definitions of paths alone, the lines that must come back.
//
// A case is a type (1: a run and a path; 2: two paths), two lengths of two bytes each, the first bytes, the second bytes.
#![tactic(auto)]

use program_files::read_full;
use std::io;
use std::io::Read;

const RUN_AND_PATH: u8 = 1;

// A path of inclusion has at most 32 symbols, which `path_words::included` asks.
const LONGEST_PATH: usize = 32;

// No case of the stream has more bytes.
const SPACE: usize = 65536;

fn answer(sort: u8, first: &[u8], second: &[u8]) -> bool {
    if sort == RUN_AND_PATH {
        return path_words::member(first, second);
    }
    first.len() <= LONGEST_PATH
        && second.len() <= LONGEST_PATH
        && path_words::included(first, second)
}

// Reads both parts of a case, n bytes and m, into the space, writes its line, and answers whether to go on.
fn answer_parts(
    rt: &impl Print,
    reader: &mut impl Read,
    sort: u8,
    n: u16,
    m: u16,
    space: &mut [u8],
) -> io::Result<bool> {
    let Some(parts) = space.get_mut(..usize::from(n) + usize::from(m)) else {
        return Ok(false);
    };
    if read_full(reader, parts)? < parts.len() {
        return Ok(false);
    }
    let (first, second) = parts.split_at(usize::from(n));
    println!(rt; "{}", u8::from(answer(sort, first, second)))?;
    Ok(true)
}

// Reads one case, writes its line, and answers whether to go on. Keeping the loop out of it keeps the proof short.
fn answer_case(rt: &impl Print, reader: &mut impl Read, space: &mut [u8]) -> io::Result<bool> {
    let mut head = [0u8; 5];
    if read_full(reader, &mut head)? < head.len() {
        return Ok(false);
    }
    let [sort, first_low, first_high, second_low, second_high] = head;
    let n = u16::from_le_bytes([first_low, first_high]);
    let m = u16::from_le_bytes([second_low, second_high]);
    answer_parts(rt, reader, sort, n, m, space)
}

// A proved loop has to end, and nothing says that the input does. So the loop counts its turns, to a number that no run uses up.
fn answer_all(rt: &impl Print, reader: &mut impl Read, space: &mut [u8]) -> io::Result<()> {
    for _ in 0..u64::MAX {
        if !answer_case(rt, reader, space)? {
            return Ok(());
        }
    }
    Ok(())
}

fn main(rt: HostRuntime) -> io::Result<()> {
    let mut space = [0u8; SPACE];
    answer_all(&rt, &mut rt.reader(), &mut space)
}
