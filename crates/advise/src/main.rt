// `advise PROFILE QUESTION`: where the question is not implied, the keys near it that do follow, one a line, or `nothing near`; else `implied`; or
// `refused` with number, input and record. Thin over `op_decide`, which decides the question and each key that is printed.
#![tactic(auto)]

use op_answers::Decision;
use op_decide::decide;
use program_advice::advice::print_near;
use program_files::{ANSWER_ROOM, PROFILE_READ, QUESTION_READ, read_argument, word_count};
use std::io;

// The program's own name and the two files
const WORDS: usize = 3;

fn advise(rt: &impl Print, profile: &[u8], question: &[u8]) -> io::Result<()> {
    let mut answer = [0u8; ANSWER_ROOM];
    match decide(profile, question, &mut answer) {
        Ok(Decision::Implied(_)) => println!(rt; "implied"),
        Ok(Decision::NotImplied(_)) => print_near(rt, profile, question, &mut answer),
        Err(refusal) => println!(rt; "{refusal}"),
    }
}

fn main(rt: HostRuntime) -> io::Result<()> {
    if word_count(&rt) != WORDS {
        return println!(rt; "usage: advise PROFILE QUESTION");
    }
    let mut profile = [0u8; PROFILE_READ];
    let mut question = [0u8; QUESTION_READ];
    let Some(first) = read_argument(&rt, 1, &mut profile)? else {
        return Ok(());
    };
    let Some(second) = read_argument(&rt, 2, &mut question)? else {
        return Ok(());
    };
    advise(&rt, &profile[..first], &question[..second])
}
