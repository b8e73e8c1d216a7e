// The listing program: reads a tree file on standard input, with labels taken as in the profile that it opens by the fixed name `profile.key`, and
// prints all blocks of its listing; on a refusal only `refused` with number, input and record.
#![tactic(auto)]

use op_list::list_block;
use program_files::{ANSWER_ROOM, PROFILE_READ, TREE_READ, read_counted, read_or_empty};
use std::io;

// The first line and 4,096 nodes are lines of five blocks.
const BLOCKS: usize = 5;

// Prints one block; false where the listing is refused.
fn print_block(rt: &impl Print, profile: &[u8], tree: &[u8], block: usize) -> io::Result<bool> {
    let mut answer = [0u8; ANSWER_ROOM];
    match list_block(profile, tree, block, &mut answer) {
        Ok(used) => {
            if let Some(lines) = answer.get(..used) {
                rt.write_all(lines)?;
            }
            Ok(true)
        }
        Err(refusal) => {
            println!(rt; "{refusal}")?;
            Ok(false)
        }
    }
}

// "the program prints all"
fn print_blocks(rt: &impl Print, profile: &[u8], tree: &[u8]) -> io::Result<()> {
    for block in 0..BLOCKS {
        if !print_block(rt, profile, tree, block)? {
            break;
        }
    }
    Ok(())
}

fn main(rt: HostRuntime) -> io::Result<()> {
    let mut profile = [0u8; PROFILE_READ];
    let labels = read_or_empty(&rt, b"profile.key", &mut profile);
    let mut tree = [0u8; TREE_READ];
    // An unreadable file counts as empty, and one that fails later as what was read.
    let mut nodes = 0;
    let _ = read_counted(&mut rt.reader(), &mut tree, &mut nodes);
    print_blocks(&rt, &profile[..labels], &tree[..nodes])
}
