// A campaign over files: each name of the list is opened, read and counted; the library sees one segment's bytes at a time.
// The loop carries that the tally is that of as many inputs as names are done, so what is printed is the exact report over that list of inputs; that
// each is what its file held is assumed of the system's calls.
#![tactic(auto)]

ghost use Rattle.meaning.specs.Operations.{reported};
ghost use Rattle.op_answers.specs.Cases.{filling_answer};
ghost use Rattle.op_tally.specs.Counting.{tally_of};
ghost use Rattle.program_campaign.specs.Inputs.{AddsInput, NamesCounted, InputsRefused, IsCampaign};

use op_answers::Refusal;
use op_campaign::{count_segment, report};
use op_tally::{Tally, count_unread, no_counts};
use program_files::{ANSWER_ROOM, TREE_READ, read_named};
use read_names::{after_name, first_name, name_count};
use std::io;
use std::io::{IsTerminal, Write};
use std::rt::Files;

// One name more: what its file holds, or that it cannot be read. An empty file is read.
fn count_name(rt: &impl Files, name: &[u8], profile: &[u8], t: Tally) -> Tally
    ensures { AddsInput profile.now (tally_of t) (tally_of result) }
{
    let mut tree = [0u8; TREE_READ];
    match read_named(rt, name, &mut tree) {
        Some(count) => count_segment(profile, &tree[..count], t),
        None => count_unread(t),
    }
}

// Segments done, of how many, over the line before.
fn write_progress(progress: &mut impl Write, done: usize, names: usize) -> io::Result<()> {
    write!(progress, "\r{done} of {names} segments")?;
    if done == names {
        progress.write_all(b"\n")?;
    }
    Ok(())
}

// For a person who waits, on standard error: standard output is the report's alone. Where it cannot be written, the counting goes on.
fn show_progress(progress: &mut impl Write, terminal: bool, done: usize, names: usize) {
    if terminal {
        let _ = write_progress(progress, done, names);
    }
}

// "A repeated file name counts each time."
fn count_names(
    rt: &impl Files,
    progress: &mut (impl Write + IsTerminal),
    list: &[u8],
    profile: &[u8],
) -> Tally
    ensures { NamesCounted list.now profile.now (tally_of result) }
{
    let names = name_count(list);
    let terminal = progress.is_terminal();
    let mut rest = list;
    let mut t = no_counts();
    let mut done = 0;
    // Stays a `while`: because a name ends where the next begins; the rest gets shorter, and nothing is counted.
    while !rest.is_empty() {
        t = count_name(rt, first_name(rest), profile, t);
        rest = after_name(rest);
        done += 1;
        show_progress(progress, terminal, done, names);
    }
    t
}

// The report of no counts comes first: where list or profile is refused no segment is opened.
fn inputs_refused(list: &[u8], profile: &[u8]) -> bool
    ensures { InputsRefused list.now profile.now result }
{
    let mut tried = [0u8; ANSWER_ROOM];
    report(list, profile, no_counts(), &mut tried).is_err()
}

// The report of the campaign at the front of the answer buffer; every byte behind it stays, and a refusal changes none.
pub fn report_campaign(
    rt: &impl Files,
    progress: &mut (impl Write + IsTerminal),
    list: &[u8],
    profile: &[u8],
    answer: &mut [u8],
) -> Result<usize, Refusal>
    ensures { IsCampaign list.now profile.now answer.old (filling_answer reported result answer.new) }
{
    if inputs_refused(list, profile) {
        return report(list, profile, no_counts(), answer);
    }
    report(
        list,
        profile,
        count_names(rt, progress, list, profile),
        answer,
    )
}
