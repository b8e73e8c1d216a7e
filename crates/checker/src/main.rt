// `checker proof PROFILE QUESTION PROOF` and `checker tree PROFILE QUESTION TREE`: print `accepted`, or `refused` with number, input and record;
// of a tree, with the witness where a key is broken; or `unreadable` with the name of a file. What is decided stands in `op_proof` and
// `op_tree`. No decider is reached.
#![tactic(auto)]

use op_proof::check_proof;
use op_tree::check_counterexample;
use program_files::{
    PROFILE_READ, PROOF_READ, QUESTION_READ, TREE_READ, WORD_ROOM, read_argument, word_argument,
    word_count,
};
use program_witness::print_countering;
use std::io;
use std::rt::{Env, Files};

// The program's own name, the word and the three files
const WORDS: usize = 5;

fn proof(rt: &(impl Env + Files + Print)) -> io::Result<()> {
    let mut profile = [0u8; PROFILE_READ];
    let mut question = [0u8; QUESTION_READ];
    let mut lines = [0u8; PROOF_READ];
    let Some(first) = read_argument(rt, 2, &mut profile)? else {
        return Ok(());
    };
    let Some(second) = read_argument(rt, 3, &mut question)? else {
        return Ok(());
    };
    let Some(third) = read_argument(rt, 4, &mut lines)? else {
        return Ok(());
    };
    match check_proof(&profile[..first], &question[..second], &lines[..third]) {
        Ok(()) => println!(rt; "accepted"),
        Err(refusal) => println!(rt; "{refusal}"),
    }
}

fn tree(rt: &(impl Env + Files + Print)) -> io::Result<()> {
    let mut profile = [0u8; PROFILE_READ];
    let mut question = [0u8; QUESTION_READ];
    let mut nodes = [0u8; TREE_READ];
    let Some(first) = read_argument(rt, 2, &mut profile)? else {
        return Ok(());
    };
    let Some(second) = read_argument(rt, 3, &mut question)? else {
        return Ok(());
    };
    let Some(third) = read_argument(rt, 4, &mut nodes)? else {
        return Ok(());
    };
    print_countering(
        rt,
        check_counterexample(&profile[..first], &question[..second], &nodes[..third]),
    )
}

fn usage(rt: &impl Print) -> io::Result<()> {
    println!(rt; "usage: checker proof PROFILE QUESTION PROOF | checker tree PROFILE QUESTION TREE")
}

fn main(rt: HostRuntime) -> io::Result<()> {
    let mut room = [0u8; WORD_ROOM];
    match (word_count(&rt), word_argument(&rt, 1, &mut room)) {
        (WORDS, b"proof") => proof(&rt),
        (WORDS, b"tree") => tree(&rt),
        _ => usage(&rt),
    }
}
