// Answers a stream of cases of the public operations on standard input. tests/reference/stream.rs has the format and tests/differential.rs makes the
// stream and, from the definitions alone, holds what comes back to it. Thin: it reads a case, calls one operation and writes its answer.
//
// An answer is a line as the programs print it; where the line ends in a number of bytes, they follow. `not here` stands for an operation or a room
// that this program does not have, `changed` for an operation that changed a byte of the answer buffer behind those it used.
#![tactic(auto)]

use op_answers::{Decision, Refusal};
use op_campaign::{count_segment, report};
use op_list::list_block;
use op_proof::check_proof;
use op_tally::{Tally, count_unread, no_counts};
use op_tree::check_counterexample;
use op_trim::trim;
use program_lean::print_dropped;
use program_witness::{print_countering, print_keeping};
use std::io;
use std::io::Read;
use test_frames::cases::{Case, input, read_case, read_inputs};
use test_frames::lent::{fill, filled, refused};
use test_frames::segments::first_segment;

// The operations, by their numbers in the stream.
#[derive(Clone, Copy, Debug, PartialEq, Eq)]
enum Operation {
    Rewrite,
    Body,
    Include,
    Keep,
    CheckProof,
    CheckTree,
    Decide,
    List,
    ReadLine,
    WriteLine,
    Reduce,
    DroppedProof,
    Trim,
    Salvage,
    SalvageListing,
    Campaign,
}

// No operation has that number.
#[derive(Clone, Copy, Debug, PartialEq, Eq)]
struct NoOperation;

impl TryFrom<u8> for Operation {
    type Error = NoOperation;

    fn try_from(number: u8) -> Result<Operation, NoOperation> {
        match number {
            1 => Ok(Operation::Rewrite),
            2 => Ok(Operation::Body),
            3 => Ok(Operation::Include),
            4 => Ok(Operation::Keep),
            5 => Ok(Operation::CheckProof),
            6 => Ok(Operation::CheckTree),
            7 => Ok(Operation::Decide),
            8 => Ok(Operation::List),
            9 => Ok(Operation::ReadLine),
            10 => Ok(Operation::WriteLine),
            11 => Ok(Operation::Reduce),
            12 => Ok(Operation::DroppedProof),
            13 => Ok(Operation::Trim),
            14 => Ok(Operation::Salvage),
            15 => Ok(Operation::SalvageListing),
            16 => Ok(Operation::Campaign),
            _ => Err(NoOperation),
        }
    }
}

// What an operation is given besides the answer buffer.
#[derive(Clone, Copy, Debug)]
struct Inputs<'a> {
    number: usize,
    first: &'a [u8],
    second: &'a [u8],
    third: &'a [u8],
}

// No input of the stream is longer than a question of two whole records, and there are three.
const INPUTS_ROOM: usize = 393216;

// One byte more than an operation that fills an answer buffer asks, so that a larger buffer is lent too.
const ANSWER_ROOM: usize = 65537;

fn not_here(rt: &impl Print) -> io::Result<()> {
    println!(rt; "not here")
}

fn body(rt: &impl Print, profile: &[u8], n: usize) -> io::Result<()> {
    let bytes = op_profile::profiles::body(profile, n);
    println!(rt; "body {}", bytes.len())?;
    rt.write_all(bytes)
}

fn include(rt: &impl Print, profile: &[u8], path: &[u8], other: &[u8]) -> io::Result<()> {
    match op_profile::inclusions::include(profile, path, other) {
        Ok(true) => println!(rt; "included"),
        Ok(false) => println!(rt; "not included"),
        Err(refusal) => println!(rt; "{refusal}"),
    }
}

fn keep(rt: &impl Print, profile: &[u8], question: &[u8], tree: &[u8]) -> io::Result<()> {
    print_keeping(rt, op_tree::keep(profile, question, tree))
}

fn checked(rt: &impl Print, checking: Result<(), Refusal>) -> io::Result<()> {
    match checking {
        Ok(()) => println!(rt; "accepted"),
        Err(refusal) => println!(rt; "{refusal}"),
    }
}

fn decide(rt: &impl Print, profile: &[u8], question: &[u8], answer: &mut [u8]) -> io::Result<()> {
    match op_decide::decide(profile, question, answer) {
        Ok(Decision::Implied(used)) => filled(rt, "implied", used, answer),
        Ok(Decision::NotImplied(used)) => filled(rt, "not implied", used, answer),
        Err(refusal) => refused(rt, refusal, answer),
    }
}

// The line of an operation that fills an answer buffer, by its word.
fn filling(
    rt: &impl Print,
    word: &str,
    answered: Result<usize, Refusal>,
    answer: &mut [u8],
) -> io::Result<()> {
    match answered {
        Ok(used) => filled(rt, word, used, answer),
        Err(refusal) => refused(rt, refusal, answer),
    }
}

// The numbers of the dropped keys stand before the number of bytes.
fn reduce(rt: &impl Print, profile: &[u8], answer: &mut [u8]) -> io::Result<()> {
    match op_lean::reduce(profile, answer) {
        Ok(lean) => {
            print!(rt; "reduced ")?;
            print_dropped(rt, &lean.dropped[..lean.count])?;
            filled(rt, "", lean.used, answer)
        }
        Err(refusal) => refused(rt, refusal, answer),
    }
}

fn count_all(profile: &[u8], framed: &[u8]) -> Tally {
    let mut tally = no_counts();
    let mut rest = framed;
    while let Some(segment) = first_segment(rest) {
        tally = match segment.bytes {
            Some(tree) => count_segment(profile, tree, tally),
            None => count_unread(tally),
        };
        rest = segment.rest;
    }
    tally
}

// One arm for each operation.
fn answer_inputs(
    rt: &impl Print,
    operation: Operation,
    inputs: Inputs,
    answer: &mut [u8],
) -> io::Result<()> {
    let Inputs {
        number,
        first,
        second,
        third,
    } = inputs;
    match operation {
        Operation::Rewrite => {
            let rewritten = op_profile::profiles::rewrite(first, answer);
            filling(rt, "rewritten", rewritten, answer)
        }
        Operation::Body => body(rt, first, number),
        Operation::Include => include(rt, first, second, third),
        Operation::Keep => keep(rt, first, second, third),
        Operation::CheckProof => checked(rt, check_proof(first, second, third)),
        Operation::CheckTree => print_countering(rt, check_counterexample(first, second, third)),
        Operation::Decide => decide(rt, first, second, answer),
        Operation::List => {
            let listed = list_block(first, third, number, answer);
            filling(rt, "listed", listed, answer)
        }
        Operation::ReadLine => {
            let read = op_read_line::read_line(first, second, answer);
            filling(rt, "key", read, answer)
        }
        Operation::WriteLine => {
            let written = op_write_line::write_line(first, second, answer);
            filling(rt, "text", written, answer)
        }
        Operation::Reduce => reduce(rt, first, answer),
        Operation::DroppedProof => {
            let proved = op_lean::prove_dropped(first, number, answer);
            filling(rt, "proof", proved, answer)
        }
        Operation::Trim => {
            let trimmed = trim(first, second, third, answer);
            filling(rt, "trimmed", trimmed, answer)
        }
        Operation::Salvage => {
            let salvaged = op_salvage::salvage::salvage(first, third, answer);
            filling(rt, "salvaged", salvaged, answer)
        }
        Operation::SalvageListing => {
            let listed = op_salvage_list::salvage_block(first, third, number, answer);
            filling(rt, "listed", listed, answer)
        }
        Operation::Campaign => {
            let reported = report(second, first, count_all(first, third), answer);
            filling(rt, "reported", reported, answer)
        }
    }
}

// Lends as much of the answer buffer as the case says.
fn answer_case(rt: &impl Print, case: Case, space: &[u8], answer: &mut [u8]) -> io::Result<()> {
    let inputs = Inputs {
        number: case.number,
        first: input(space, 0, case.second),
        second: input(space, case.second, case.third),
        third: input(space, case.third, case.end),
    };
    match (
        Operation::try_from(case.operation),
        answer.get_mut(..case.room),
    ) {
        (Ok(operation), Some(lent)) => answer_inputs(rt, operation, inputs, lent),
        _ => not_here(rt),
    }
}

// Answers the next case, and says whether there was one.
fn answer_next(
    rt: &impl Print,
    reader: &mut impl Read,
    space: &mut [u8],
    answer: &mut [u8],
) -> io::Result<bool> {
    let Some(case) = read_case(reader)? else {
        return Ok(false);
    };
    let is_read = read_inputs(reader, case.end, space)?;
    if is_read {
        answer_case(rt, case, space, answer)?;
    }
    Ok(is_read)
}

// A proved loop has to end, and nothing says that the input does. So the loop counts its turns, to a number that no run uses up.
fn answer_all(
    rt: &impl Print,
    reader: &mut impl Read,
    space: &mut [u8],
    answer: &mut [u8],
) -> io::Result<()> {
    for _ in 0..u64::MAX {
        if !answer_next(rt, reader, space, answer)? {
            break;
        }
    }
    Ok(())
}

fn main(rt: HostRuntime) -> io::Result<()> {
    let mut space = [0u8; INPUTS_ROOM];
    let mut answer = [0u8; ANSWER_ROOM];
    fill(&mut answer);
    answer_all(&rt, &mut rt.reader(), &mut space, &mut answer)
}
