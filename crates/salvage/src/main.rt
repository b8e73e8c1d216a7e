// `salvage PROFILE TREE OUT`: writes what is left of a damaged tree file to OUT and prints the listing, `salvaged` with the number of records dropped, a
// line for each, and one for each profile key that what is left breaks; or `refused` with number, input and record, `unwritable`, or `unreadable` with
// the name. Thin over `op_salvage::salvage` and `op_salvage_list`.
#![tactic(auto)]

use op_salvage::salvage::salvage;
use op_salvage_list::salvage_block;
use program_files::{
    ANSWER_ROOM, PROFILE_READ, TREE_READ, read_argument, word_count, write_argument,
};
use std::io;
use std::rt::{Env, Files};

// The program's own name and the three files
const WORDS: usize = 4;

// OUT's place among them
const OUT: usize = 3;

// The first line, 11,264 records and 64 keys are lines of twelve blocks.
const BLOCKS: usize = 12;

// Prints one block; false where there is none.
fn print_block(rt: &impl Print, profile: &[u8], tree: &[u8], block: usize) -> io::Result<bool> {
    let mut answer = [0u8; ANSWER_ROOM];
    match salvage_block(profile, tree, block, &mut answer) {
        Ok(used) => {
            if let Some(lines) = answer.get(..used) {
                rt.write_all(lines)?;
            }
            Ok(0 < used)
        }
        Err(refusal) => {
            println!(rt; "{refusal}")?;
            Ok(false)
        }
    }
}

fn print_blocks(rt: &impl Print, profile: &[u8], tree: &[u8]) -> io::Result<()> {
    for block in 0..BLOCKS {
        if !print_block(rt, profile, tree, block)? {
            break;
        }
    }
    Ok(())
}

// OUT is written first, once the answer is known.
fn write_and_list(
    rt: &(impl Env + Files + Print),
    left: &[u8],
    profile: &[u8],
    tree: &[u8],
) -> io::Result<()> {
    if write_argument(rt, OUT, left) {
        return print_blocks(rt, profile, tree);
    }
    println!(rt; "unwritable")
}

fn salvage_files(rt: &(impl Env + Files + Print)) -> io::Result<()> {
    let mut profile = [0u8; PROFILE_READ];
    let mut tree = [0u8; TREE_READ];
    let mut answer = [0u8; ANSWER_ROOM];
    let Some(first) = read_argument(rt, 1, &mut profile)? else {
        return Ok(());
    };
    let Some(second) = read_argument(rt, 2, &mut tree)? else {
        return Ok(());
    };
    match salvage(&profile[..first], &tree[..second], &mut answer) {
        Ok(used) => match answer.get(..used) {
            Some(left) => write_and_list(rt, left, &profile[..first], &tree[..second]),
            None => Ok(()),
        },
        Err(refusal) => println!(rt; "{refusal}"),
    }
}

fn main(rt: HostRuntime) -> io::Result<()> {
    if word_count(&rt) != WORDS {
        return println!(rt; "usage: salvage PROFILE TREE OUT");
    }
    salvage_files(&rt)
}
