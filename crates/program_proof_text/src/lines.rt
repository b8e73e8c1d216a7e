// The lines in two walks: the first finds how wide the columns are, the second prints them.
use crate::reasons::print_reason;
use op_proof::check_proof;
use op_proof_line::write_proof_line;
use program_files::ANSWER_ROOM;
use program_layout::columns::{digits, print_spaces};
use program_layout::parts::part;
use read_walker::walker::Records;
use std::io;

// A proof that the check accepts, with what it is checked against.
#[derive(Clone, Copy, Debug)]
struct Accepted<'a> {
    profile: &'a [u8],
    question: &'a [u8],
    proof: &'a [u8],
}

#[derive(Clone, Copy, Debug, PartialEq, Eq)]
struct Columns {
    number: usize,
    key: usize,
}

// How many bytes the key of line n has at the front of the answer buffer: no line of an accepted proof is refused.
fn put_key(accepted: &Accepted, n: usize, answer: &mut [u8]) -> usize {
    write_proof_line(
        accepted.profile,
        accepted.question,
        accepted.proof,
        n,
        answer,
    )
    .unwrap_or(0)
}

fn key_width(accepted: &Accepted, n: usize) -> usize {
    let mut answer = [0u8; ANSWER_ROOM];
    put_key(accepted, n, &mut answer)
}

fn measure(accepted: &Accepted) -> Columns {
    let count = Records::new(accepted.proof, 0).count();
    let mut key = 0;
    for n in 0..count {
        key = key.max(key_width(accepted, n));
    }
    Columns {
        number: digits(count.saturating_sub(1)),
        key,
    }
}

// The key of line n, padded to the longest key's width.
fn print_key(rt: &impl Print, accepted: &Accepted, n: usize, width: usize) -> io::Result<()> {
    let mut answer = [0u8; ANSWER_ROOM];
    let used = put_key(accepted, n, &mut answer);
    rt.write_all(part(&answer, 0, used))?;
    print_spaces(rt, width.saturating_sub(used))
}

fn print_lines(rt: &impl Print, accepted: &Accepted) -> io::Result<()> {
    let columns = measure(accepted);
    let places = columns.number;
    for (n, record) in Records::new(accepted.proof, 0).enumerate() {
        print!(rt; "{n:>places$}  ")?;
        print_key(rt, accepted, n, columns.key)?;
        print!(rt; "  ")?;
        print_reason(rt, record)?;
        println!(rt)?;
    }
    Ok(())
}

// "only for a proof that the check accepts (else its refusal)"
pub fn show_proof(
    rt: &impl Print,
    profile: &[u8],
    question: &[u8],
    proof: &[u8],
) -> io::Result<()> {
    match check_proof(profile, question, proof) {
        Ok(()) => print_lines(
            rt,
            &Accepted {
                profile,
                question,
                proof,
            },
        ),
        Err(refusal) => println!(rt; "{refusal}"),
    }
}
