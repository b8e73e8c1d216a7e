// A profile as text: "one record a line, in the order of the records, so that line n + 1 is record n". What is accepted is said by `op_profile`, what a
// key's line is by `op_write_line`: a key record of a profile is a question's record.
#![tactic(auto)]

use op_profile::profiles::rewrite;
use op_write_line::write_line;
use program_files::ANSWER_ROOM;
use program_layout::names::{ATTRIBUTE_CLASS, CLASS_AT, NAME_AT, NUMBER_AT};
use program_layout::parts::{byte_at, part, record_kind};
use read_record::bodies::{EDITION_KIND, LABEL_KIND};
use read_record::fields::HEAD_BYTES;
use read_walker::walker::Records;
use std::io;

// "A profile of edition 2 begins with a record of kind 6": the edition is its only byte.
fn print_edition(rt: &impl Print, record: &[u8]) -> io::Result<()> {
    println!(rt; "edition {}", byte_at(record, HEAD_BYTES))
}

fn print_declaration(rt: &impl Print, record: &[u8]) -> io::Result<()> {
    let class = match byte_at(record, CLASS_AT) {
        ATTRIBUTE_CLASS => "attribute",
        _ => "element",
    };
    print!(rt; "{class} {} ", byte_at(record, NUMBER_AT))?;
    rt.write_all(part(record, NAME_AT, record.len()))?;
    println!(rt)
}

// The refusal is that of the operation: no key of an accepted profile has one.
fn print_key(rt: &impl Print, profile: &[u8], record: &[u8]) -> io::Result<()> {
    let mut answer = [0u8; ANSWER_ROOM];
    match write_line(profile, record, &mut answer) {
        Ok(used) => {
            rt.write_all(part(&answer, 0, used))?;
            println!(rt)
        }
        Err(refusal) => println!(rt; "{refusal}"),
    }
}

fn print_record(rt: &impl Print, profile: &[u8], record: &[u8]) -> io::Result<()> {
    match record_kind(record) {
        EDITION_KIND => print_edition(rt, record),
        LABEL_KIND => print_declaration(rt, record),
        _ => print_key(rt, profile, record),
    }
}

pub fn show_profile(rt: &impl Print, profile: &[u8]) -> io::Result<()> {
    let mut answer = [0u8; ANSWER_ROOM];
    if let Err(refusal) = rewrite(profile, &mut answer) {
        return println!(rt; "{refusal}");
    }
    for record in Records::new(profile, 0) {
        print_record(rt, profile, record)?;
    }
    Ok(())
}
