// The program `text`: `text key PROFILE LINE OUT` writes the record of the key that a line spells, `text line PROFILE QUESTION OUT` the question's key
// in plain text, with a newline behind it. Thin over `op_read_line` and `op_write_line`; a file that cannot be read is named, and nothing is answered.
#![tactic(auto)]

use op_read_line::read_line;
use op_write_line::write_line;
use program_files::{
    ANSWER_ROOM, PROFILE_READ, QUESTION_READ, WORD_ROOM, read_argument, word_argument, word_count,
    write_argument, write_used,
};
use program_text::bare;
use std::io;
use std::rt::{Env, Files};

// The program's own name, the word and the three files
const WORDS: usize = 5;

// OUT's place among them
const OUT: usize = 4;

// How many bytes are read of a line, which has no size
const LINE_READ: usize = 131071;

const NEWLINE: u8 = b'\n';

fn usage(rt: &impl Print) -> io::Result<()> {
    println!(rt; "usage: text key PROFILE LINE OUT | text line PROFILE QUESTION OUT")
}

fn key_of_line(rt: &(impl Env + Files + Print)) -> io::Result<()> {
    let mut profile = [0u8; PROFILE_READ];
    let mut line = [0u8; LINE_READ];
    let mut answer = [0u8; ANSWER_ROOM];
    let Some(first) = read_argument(rt, 2, &mut profile)? else {
        return Ok(());
    };
    let Some(second) = read_argument(rt, 3, &mut line)? else {
        return Ok(());
    };
    match read_line(&profile[..first], bare(&line[..second]), &mut answer) {
        Ok(used) => write_used(rt, OUT, "key", &answer, used),
        Err(refusal) => println!(rt; "{refusal}"),
    }
}

// The line with a newline behind it: false where it cannot be written.
fn write_ended(rt: &(impl Env + Files), answer: &mut [u8], used: usize) -> bool {
    if answer.len() <= used {
        return false;
    }
    answer[used] = NEWLINE;
    write_argument(rt, OUT, &answer[..used + 1])
}

fn line_of_key(rt: &(impl Env + Files + Print)) -> io::Result<()> {
    let mut profile = [0u8; PROFILE_READ];
    let mut question = [0u8; QUESTION_READ];
    let mut answer = [0u8; ANSWER_ROOM];
    let Some(first) = read_argument(rt, 2, &mut profile)? else {
        return Ok(());
    };
    let Some(second) = read_argument(rt, 3, &mut question)? else {
        return Ok(());
    };
    match write_line(&profile[..first], &question[..second], &mut answer) {
        Ok(used) if write_ended(rt, &mut answer, used) => println!(rt; "text {used}"),
        Ok(_) => println!(rt; "unwritable"),
        Err(refusal) => println!(rt; "{refusal}"),
    }
}

fn main(rt: HostRuntime) -> io::Result<()> {
    let mut room = [0u8; WORD_ROOM];
    match (word_count(&rt), word_argument(&rt, 1, &mut room)) {
        (WORDS, b"key") => key_of_line(&rt),
        (WORDS, b"line") => line_of_key(&rt),
        _ => usage(&rt),
    }
}
