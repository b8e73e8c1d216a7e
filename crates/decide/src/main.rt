// `decide PROFILE QUESTION OUT`: prints `implied` or `not implied` with the bytes of evidence that it writes to OUT, a proof or a tree; or
// `refused` with number, input and record; or `unreadable` with the name of a file. Thin over `op_decide::decide`.
#![tactic(auto)]

use op_answers::Decision;
use op_decide::decide;
use program_files::{
    ANSWER_ROOM, PROFILE_READ, QUESTION_READ, read_argument, word_count, write_used,
};
use std::io;
use std::rt::{Env, Files};

// The program's own name and the three files
const WORDS: usize = 4;

// OUT's place among them
const OUT: usize = 3;

fn decide_files(rt: &(impl Env + Files + Print)) -> io::Result<()> {
    let mut profile = [0u8; PROFILE_READ];
    let mut question = [0u8; QUESTION_READ];
    let mut answer = [0u8; ANSWER_ROOM];
    let Some(first) = read_argument(rt, 1, &mut profile)? else {
        return Ok(());
    };
    let Some(second) = read_argument(rt, 2, &mut question)? else {
        return Ok(());
    };
    match decide(&profile[..first], &question[..second], &mut answer) {
        Ok(Decision::Implied(used)) => write_used(rt, OUT, "implied", &answer, used),
        Ok(Decision::NotImplied(used)) => write_used(rt, OUT, "not implied", &answer, used),
        Err(refusal) => println!(rt; "{refusal}"),
    }
}

fn main(rt: HostRuntime) -> io::Result<()> {
    if word_count(&rt) != WORDS {
        return println!(rt; "usage: decide PROFILE QUESTION OUT");
    }
    decide_files(&rt)
}
