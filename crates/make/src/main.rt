// `make profile TEXT OUT`: writes the profile that a text says, one record a line, to OUT, and prints `made` with its bytes; or `line` with the number
// of the first line that is none, or whose key is refused; or `refused` with number, input and record. Thin over `op_read_line`, which reads the keys,
// and `op_profile`, which judges what was made. Nothing is written on a fault.
#![tactic(auto)]

use op_answers::{Input, Refusal};
use op_profile::profiles::rewrite;
use program_files::{
    ANSWER_ROOM, PROFILE_READ, WORD_ROOM, read_argument, word_argument, word_count, write_used,
};
use program_layout::parts::part;
use program_profile_lines::lines::{LineError, add_line, too_large};
use read_names::{after_name, first_name};
use std::io;
use std::rt::{Env, Files};

// The program's own name, the word and the two files
const WORDS: usize = 4;

// OUT's place among them
const OUT: usize = 3;

// 64 keys of 1,700 bytes and 199 labels are under it.
const TEXT_BYTES: usize = 131071;

const TEXT_READ: usize = 131072;

// The profile is accepted; where it is not, its refusal is printed.
fn judged(rt: &impl Print, made: &[u8], answer: &mut [u8]) -> io::Result<bool> {
    match rewrite(made, answer) {
        Ok(_) => Ok(true),
        Err(refusal) => {
            println!(rt; "{refusal}")?;
            Ok(false)
        }
    }
}

// The first faulty line is told: a record that was made before may be refused.
fn tell_no_line(rt: &impl Print, line: usize, made: &[u8], answer: &mut [u8]) -> io::Result<()> {
    if judged(rt, made, answer)? {
        println!(rt; "line {line}: no edition, element, attribute or key line")?;
    }
    Ok(())
}

// A refusal of the key is told with its line; one of the profile has its record, and so the line.
fn tell_refusal(rt: &impl Print, line: usize, refusal: Refusal) -> io::Result<()> {
    if refusal.input == Input::Question {
        print!(rt; "line {line}: ")?;
    }
    println!(rt; "{refusal}")
}

fn write_made(rt: &(impl Env + Files + Print), made: &[u8], answer: &mut [u8]) -> io::Result<()> {
    if judged(rt, made, answer)? {
        write_used(rt, OUT, "made", made, made.len())?;
    }
    Ok(())
}

fn make_lines(
    rt: &(impl Env + Files + Print),
    text: &[u8],
    made: &mut [u8],
    answer: &mut [u8],
) -> io::Result<()> {
    let mut rest = text;
    let mut used = 0;
    let mut line = 0;
    // Stays a `while`: because a line ends where the next begins; the rest gets shorter, and nothing is counted.
    while !rest.is_empty() {
        line += 1;
        match add_line(first_name(rest), made, used, answer) {
            Ok(more) => used = more,
            Err(LineError::NoLine) => return tell_no_line(rt, line, part(made, 0, used), answer),
            Err(LineError::Refused(refusal)) => return tell_refusal(rt, line, refusal),
        }
        rest = after_name(rest);
    }
    write_made(rt, part(made, 0, used), answer)
}

fn make_text(rt: &(impl Env + Files + Print), text: &[u8]) -> io::Result<()> {
    let mut made = [0u8; PROFILE_READ];
    let mut answer = [0u8; ANSWER_ROOM];
    if TEXT_BYTES < text.len() {
        return println!(rt; "{}", too_large());
    }
    make_lines(rt, text, &mut made, &mut answer)
}

fn make_file(rt: &(impl Env + Files + Print)) -> io::Result<()> {
    let mut text = [0u8; TEXT_READ];
    match read_argument(rt, 2, &mut text)? {
        Some(count) => make_text(rt, &text[..count]),
        None => Ok(()),
    }
}

fn main(rt: HostRuntime) -> io::Result<()> {
    let mut room = [0u8; WORD_ROOM];
    match (word_count(&rt), word_argument(&rt, 1, &mut room)) {
        (WORDS, b"profile") => make_file(&rt),
        _ => println!(rt; "usage: make profile TEXT OUT"),
    }
}
