// `campaign PROFILE LIST`: prints the report over the files that LIST names, one a line; or `refused` with number, input and record, or
// `unreadable` with the name of PROFILE or LIST. Thin over `program_campaign::report_campaign`.
#![tactic(auto)]

ghost use Rattle.std.specs.Prelude.{◌≡◌, length};

use op_answers::{Input, Refusal};
use program_campaign::report_campaign;
use program_files::{ANSWER_ROOM, PROFILE_READ, read_argument, word_count};
use read_judged::RefusalKind;
use std::io;
use std::io::{IsTerminal, Write};
use std::rt::Files;

// The program's own name and the two files
const WORDS: usize = 3;

// 200 names of the system's 4,095 bytes with their newlines. A longer list has over 200 names, or one that no call takes.
const LIST_BYTES: usize = 819200;

const LIST_READ: usize = 819201;

// Zeros with room for the list; the `ensures` gives the length, which lending them needs.
fn list_room() -> [u8; LIST_READ]
    ensures { 819201 ≡ length result }
{
    [0u8; LIST_READ]
}

// 7: the list is over its size.
fn too_large() -> Refusal {
    Refusal {
        kind: RefusalKind::TooLarge,
        input: Input::TreeOrProof,
        place: 0,
    }
}

fn print_used(rt: &impl Print, answer: &[u8], used: usize) -> io::Result<()> {
    match answer.get(..used) {
        Some(lines) => rt.write_all(lines),
        None => Ok(()),
    }
}

fn print_campaign(
    rt: &(impl Files + Print),
    progress: &mut (impl Write + IsTerminal),
    list: &[u8],
    profile: &[u8],
) -> io::Result<()> {
    let mut answer = [0u8; ANSWER_ROOM];
    if LIST_BYTES < list.len() {
        return println!(rt; "{}", too_large());
    }
    match report_campaign(rt, progress, list, profile, &mut answer) {
        Ok(used) => print_used(rt, &answer, used),
        Err(refusal) => println!(rt; "{refusal}"),
    }
}

fn main(rt: HostRuntime) -> io::Result<()> {
    if word_count(&rt) != WORDS {
        return println!(rt; "usage: campaign PROFILE LIST");
    }
    let mut profile = [0u8; PROFILE_READ];
    let mut list = list_room();
    let Some(first) = read_argument(&rt, 1, &mut profile)? else {
        return Ok(());
    };
    let Some(second) = read_argument(&rt, 2, &mut list)? else {
        return Ok(());
    };
    print_campaign(&rt, &mut rt.stderr(), &list[..second], &profile[..first])
}
