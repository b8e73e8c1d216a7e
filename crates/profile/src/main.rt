// The program `profile`: rewrite a profile, give the body of a record, test inclusion of two paths, test whether a tree keeps a key. Thin over
// the public operations: it reads files, calls one operation and prints its answer; where a file cannot be read, `unreadable` and its name.
#![tactic(auto)]

use program_files::{
    ANSWER_ROOM, PATH_READ, PROFILE_READ, QUESTION_READ, TREE_READ, WORD_ROOM, number_argument,
    read_argument, word_argument, word_count, write_used,
};
use program_witness::print_keeping;
use std::io;
use std::rt::{Env, Files};

fn usage(rt: &impl Print) -> io::Result<()> {
    println!(rt;
        "usage: profile rewrite PROFILE OUT | profile body PROFILE N | profile include PROFILE PATH PATH | profile keep PROFILE QUESTION TREE"
    )
}

fn rewrite(rt: &(impl Env + Files + Print)) -> io::Result<()> {
    let mut profile = [0u8; PROFILE_READ];
    let Some(count) = read_argument(rt, 2, &mut profile)? else {
        return Ok(());
    };
    let mut answer = [0u8; ANSWER_ROOM];
    match op_profile::profiles::rewrite(&profile[..count], &mut answer) {
        Ok(used) => write_used(rt, 3, "rewritten", &answer, used),
        Err(refusal) => println!(rt; "{refusal}"),
    }
}

fn body(rt: &(impl Env + Files + Print), n: usize) -> io::Result<()> {
    let mut profile = [0u8; PROFILE_READ];
    let Some(count) = read_argument(rt, 2, &mut profile)? else {
        return Ok(());
    };
    rt.write_all(op_profile::profiles::body(&profile[..count], n))
}

fn include(rt: &(impl Env + Files + Print)) -> io::Result<()> {
    let mut profile = [0u8; PROFILE_READ];
    let Some(first) = read_argument(rt, 2, &mut profile)? else {
        return Ok(());
    };
    let mut path = [0u8; PATH_READ];
    let Some(second) = read_argument(rt, 3, &mut path)? else {
        return Ok(());
    };
    let mut other = [0u8; PATH_READ];
    let Some(third) = read_argument(rt, 4, &mut other)? else {
        return Ok(());
    };
    match op_profile::inclusions::include(&profile[..first], &path[..second], &other[..third]) {
        Ok(true) => println!(rt; "included"),
        Ok(false) => println!(rt; "not included"),
        Err(refusal) => println!(rt; "{refusal}"),
    }
}

fn keep(rt: &(impl Env + Files + Print)) -> io::Result<()> {
    let mut profile = [0u8; PROFILE_READ];
    let Some(first) = read_argument(rt, 2, &mut profile)? else {
        return Ok(());
    };
    let mut question = [0u8; QUESTION_READ];
    let Some(second) = read_argument(rt, 3, &mut question)? else {
        return Ok(());
    };
    let mut tree = [0u8; TREE_READ];
    let Some(third) = read_argument(rt, 4, &mut tree)? else {
        return Ok(());
    };
    print_keeping(
        rt,
        op_tree::keep(&profile[..first], &question[..second], &tree[..third]),
    )
}

// `profile body PROFILE N`: digits alone are a number.
fn body_of_argument(rt: &(impl Env + Files + Print)) -> io::Result<()> {
    match number_argument(rt, 3) {
        Some(n) => body(rt, n),
        None => usage(rt),
    }
}

fn main(rt: HostRuntime) -> io::Result<()> {
    let mut room = [0u8; WORD_ROOM];
    match (word_count(&rt), word_argument(&rt, 1, &mut room)) {
        (4, b"rewrite") => rewrite(&rt),
        (4, b"body") => body_of_argument(&rt),
        (5, b"include") => include(&rt),
        (5, b"keep") => keep(&rt),
        _ => usage(&rt),
    }
}
