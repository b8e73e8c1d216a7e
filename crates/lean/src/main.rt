// The program `lean`: `lean reduce PROFILE OUT` writes the reduced profile and prints which keys were dropped, `lean proof PROFILE N OUT` writes the
// proof of key N from the reduced profile's keys. Thin over `op_lean`; a file that cannot be read is named, and nothing is answered.
#![tactic(auto)]

use program_files::{
    ANSWER_ROOM, PROFILE_READ, WORD_ROOM, number_argument, read_argument, word_argument,
    word_count, write_argument, write_used,
};
use program_lean::print_dropped;
use std::io;
use std::rt::{Env, Files};

// The program's own name and the words behind it
const REDUCE_WORDS: usize = 4;

const PROOF_WORDS: usize = 5;

fn usage(rt: &impl Print) -> io::Result<()> {
    println!(rt; "usage: lean reduce PROFILE OUT | lean proof PROFILE N OUT")
}

// OUT is made or overwritten with exactly the bytes used, only after the answer is known; false where it cannot be written.
fn write_out(rt: &(impl Env + Files), argument: usize, answer: &[u8], used: usize) -> bool {
    answer
        .get(..used)
        .is_some_and(|bytes| write_argument(rt, argument, bytes))
}

fn print_reduced(rt: &impl Print, used: usize, dropped: &[usize]) -> io::Result<()> {
    print!(rt; "reduced {used} dropped ")?;
    print_dropped(rt, dropped)?;
    println!(rt)
}

fn reduce(rt: &(impl Env + Files + Print)) -> io::Result<()> {
    let mut profile = [0u8; PROFILE_READ];
    let mut answer = [0u8; ANSWER_ROOM];
    let Some(count) = read_argument(rt, 2, &mut profile)? else {
        return Ok(());
    };
    match op_lean::reduce(&profile[..count], &mut answer) {
        Ok(lean) if write_out(rt, 3, &answer, lean.used) => {
            print_reduced(rt, lean.used, &lean.dropped[..lean.count])
        }
        Ok(_) => println!(rt; "unwritable"),
        Err(refusal) => println!(rt; "{refusal}"),
    }
}

fn prove(rt: &(impl Env + Files + Print), n: usize) -> io::Result<()> {
    let mut profile = [0u8; PROFILE_READ];
    let mut answer = [0u8; ANSWER_ROOM];
    let Some(count) = read_argument(rt, 2, &mut profile)? else {
        return Ok(());
    };
    match op_lean::prove_dropped(&profile[..count], n, &mut answer) {
        Ok(used) => write_used(rt, 4, "proof", &answer, used),
        Err(refusal) => println!(rt; "{refusal}"),
    }
}

// `lean proof PROFILE N OUT`: digits alone are a number.
fn prove_argument(rt: &(impl Env + Files + Print)) -> io::Result<()> {
    match number_argument(rt, 3) {
        Some(n) => prove(rt, n),
        None => usage(rt),
    }
}

fn main(rt: HostRuntime) -> io::Result<()> {
    let mut room = [0u8; WORD_ROOM];
    match (word_count(&rt), word_argument(&rt, 1, &mut room)) {
        (REDUCE_WORDS, b"reduce") => reduce(&rt),
        (PROOF_WORDS, b"proof") => prove_argument(&rt),
        _ => usage(&rt),
    }
}
