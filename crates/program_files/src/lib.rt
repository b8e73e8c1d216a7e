// What the programs share: words and files by argument, and the lines that they print. Nothing that decides anything stands here.
#![tactic(auto)]

ghost use Rattle.std.specs.Prelude.{◌≡◌, ◌<◌, ◌≤◌, length, IfOk, OnErr};
ghost use Rattle.program_files.specs.Fits.{Fits, IsPrefixLen};

use std::env::FillError;
use std::io::Read;
use std::rt::{Env, Files};
use std::{fs, io, str};

// How many bytes a program reads of each input: one more than it may have, so that a larger file is refused by its size, or a path by 4; of a
// question, which has no size, two records of the greatest length and a byte.
pub const PROFILE_READ: usize = 16385;

pub const QUESTION_READ: usize = 131071;

pub const TREE_READ: usize = 45057;

pub const PROOF_READ: usize = 65537;

pub const PATH_READ: usize = 33;

// "it is under 65,536 bytes" is what 14 refuses.
pub const ANSWER_ROOM: usize = 65536;

// How many bytes an argument may have: what the system allows a name, with the byte behind it.
pub const WORD_ROOM: usize = 4096;

// As much of what is read as the buffer has room for: `done` counts what stands at its front, also where a read fails.
pub fn read_counted(reader: &mut impl Read, out: &mut [u8], done: &mut usize) -> io::Result<()>
    ensures { IsPrefixLen done.new out.new }
{
    *done = 0;
    // Stays a `while`: because a read gives as much as it has; what is counted is the bytes.
    while *done < out.len() {
        let more = reader.read(&mut out[*done..])?;
        if more == 0 {
            return Ok(());
        }
        *done += more;
    }
    Ok(())
}

// The same, where a failed read spoils all: so many bytes stand at the buffer's front.
pub fn read_full(reader: &mut impl Read, out: &mut [u8]) -> io::Result<usize>
    ensures ok { IfOk result (λ count. IsPrefixLen count out.new) }
    ensures err { OnErr result (length out.new ≡ length out.old) }
{
    let mut done = 0;
    read_counted(reader, out, &mut done)?;
    Ok(done)
}

// A folder opens and does not read; and where any read fails, what was read before it is not the file.
fn read_path(rt: &impl Files, path: &str, out: &mut [u8]) -> io::Result<usize>
    ensures ok { IfOk result (λ count. IsPrefixLen count out.new) }
    ensures err { OnErr result (length out.new ≡ length out.old) }
{
    let mut file = fs::open(rt, path)?;
    read_full(&mut file, out)
}

// Puts the file of that name at the front of out, and says how many bytes it has there; None where it cannot be read. Paths are text, so a name that
// is not UTF-8 cannot be opened.
pub fn read_named(rt: &impl Files, name: &[u8], out: &mut [u8]) -> Option<usize>
    ensures { Fits result out.new }
{
    let path = str::from_utf8(name).ok()?;
    read_path(rt, path, out).ok()
}

// Of the listing program alone: "an unreadable file counts as empty".
pub fn read_or_empty(rt: &impl Files, name: &[u8], out: &mut [u8]) -> usize
    ensures { IsPrefixLen result out.new }
{
    read_named(rt, name, out).unwrap_or(0)
}

// As read_named, for the file that an argument names. One that cannot be read is named at once, and the program ends: a mistyped name must not
// become a verdict. The error is that of the line that names it, which could not be printed; the buffer keeps its length then, and of its bytes
// nothing is known, as where the file is unread.
pub fn read_argument(
    rt: &(impl Env + Files + Print),
    argument: usize,
    out: &mut [u8],
) -> io::Result<Option<usize>>
    ensures ok { IfOk result (λ reading. Fits reading out.new) }
    ensures err { OnErr result (length out.new ≡ length out.old) }
{
    let mut room = [0u8; WORD_ROOM];
    let name = word_argument(rt, argument, &mut room);
    let reading = read_named(rt, name, out);
    if reading.is_none() {
        print_unreadable(rt, name)?;
    }
    Ok(reading)
}

// Makes or overwrites the file of that name; false where it cannot be written.
fn write_named(rt: &impl Files, name: &[u8], bytes: &[u8]) -> bool {
    str::from_utf8(name).is_ok_and(|path| fs::write(rt, path, bytes).is_ok())
}

// The same for the file that an argument names.
pub fn write_argument(rt: &(impl Env + Files), argument: usize, bytes: &[u8]) -> bool {
    let mut room = [0u8; WORD_ROOM];
    write_named(rt, word_argument(rt, argument, &mut room), bytes)
}

fn print_unreadable(rt: &impl Print, name: &[u8]) -> io::Result<()> {
    print!(rt; "unreadable ")?;
    rt.write_all(name)?;
    println!(rt)
}

// The file that an argument names is made or overwritten with exactly these bytes, once the answer is known, and the line says how many.
fn write_part(
    rt: &(impl Env + Files + Print),
    argument: usize,
    word: &str,
    bytes: &[u8],
) -> io::Result<()> {
    if write_argument(rt, argument, bytes) {
        let count = bytes.len();
        return println!(rt; "{word} {count}");
    }
    println!(rt; "unwritable")
}

// The same for the first bytes of an answer, which are there.
pub fn write_used(
    rt: &(impl Env + Files + Print),
    argument: usize,
    word: &str,
    answer: &[u8],
    used: usize,
) -> io::Result<()> {
    match answer.get(..used) {
        Some(bytes) => write_part(rt, argument, word, bytes),
        None => Ok(()),
    }
}

// How many words the program was started with, its own name among them.
pub fn word_count(rt: &impl Env) -> usize {
    let mut first_byte = [0u8; 1];
    for i in 0..usize::MAX {
        if let Err(FillError::NotPresent) = rt.arg(i, &mut first_byte) {
            return i;
        }
    }
    usize::MAX
}

// The word that an argument is, in the room lent for it; the empty word where there is none, or where it is longer than the system allows a name.
pub fn word_argument<'a>(
    rt: &impl Env,
    argument: usize,
    room: &'a mut [u8; WORD_ROOM],
) -> &'a [u8] {
    let length = rt.arg(argument, room).unwrap_or(0);
    &room[..length]
}

// The digits of a number so far, and one more. A number that is larger than any record's stays at some number that is.
const BEYOND: usize = 65536;

fn with_digit(n: usize, digit: u8) -> usize
    requires { (48 ≤ digit) × (digit ≤ 57) × (n < 655360) }
    ensures { result < 655360 }
{
    if BEYOND <= n {
        return n;
    }
    n * 10 + usize::from(digit - b'0')
}

// A number in decimal digits; None where anything else stands there.
pub fn number_in(text: &[u8]) -> Option<usize> {
    if text.is_empty() {
        return None;
    }
    let mut n = 0;
    for &digit in text {
        if !digit.is_ascii_digit() {
            return None;
        }
        n = with_digit(n, digit);
    }
    Some(n)
}

// The number that an argument is.
pub fn number_argument(rt: &impl Env, argument: usize) -> Option<usize> {
    let mut room = [0u8; WORD_ROOM];
    number_in(word_argument(rt, argument, &mut room))
}
