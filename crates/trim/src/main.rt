// `trim PROFILE QUESTION PROOF OUT`: prints `trimmed` with the bytes of the shorter proof that it writes to OUT, or `refused` with number, input and
// record, or `unreadable` with the name. Thin over `op_trim::trim`.
#![tactic(auto)]

use op_trim::trim;
use program_files::{
    ANSWER_ROOM, PROFILE_READ, PROOF_READ, QUESTION_READ, read_argument, word_count, write_used,
};
use std::io;
use std::rt::{Env, Files};

// The program's own name and the four files
const WORDS: usize = 5;

// OUT's place among them
const OUT: usize = 4;

fn trim_files(rt: &(impl Env + Files + Print)) -> io::Result<()> {
    let mut profile = [0u8; PROFILE_READ];
    let mut question = [0u8; QUESTION_READ];
    let mut proof = [0u8; PROOF_READ];
    let mut answer = [0u8; ANSWER_ROOM];
    let Some(first) = read_argument(rt, 1, &mut profile)? else {
        return Ok(());
    };
    let Some(second) = read_argument(rt, 2, &mut question)? else {
        return Ok(());
    };
    let Some(third) = read_argument(rt, 3, &mut proof)? else {
        return Ok(());
    };
    match trim(
        &profile[..first],
        &question[..second],
        &proof[..third],
        &mut answer,
    ) {
        Ok(used) => write_used(rt, OUT, "trimmed", &answer, used),
        Err(refusal) => println!(rt; "{refusal}"),
    }
}

fn main(rt: HostRuntime) -> io::Result<()> {
    if word_count(&rt) != WORDS {
        return println!(rt; "usage: trim PROFILE QUESTION PROOF OUT");
    }
    trim_files(&rt)
}
