// The program `show`: a profile, a proof, a tree as a person reads them. What is said of them is decided by the operations; each text is laid out by a
// crate of its own. A file that cannot be read is named, and nothing else is printed.
#![tactic(auto)]

use program_files::{
    PROFILE_READ, PROOF_READ, QUESTION_READ, WORD_ROOM, read_argument, word_argument, word_count,
};
use program_profile_text::show_profile;
use program_proof_text::lines::show_proof;
use program_tree_dot::show_dot;
use program_tree_text::show_tree;
use std::io;
use std::rt::{Env, Files};

// The program's own name, the word and PROFILE
const PROFILE_WORDS: usize = 3;

// The program's own name, the word and the three files
const EVIDENCE_WORDS: usize = 5;

// What the third file is, and how it is shown: a proof; a tree as lines without the fillers that no mark names, as lines with them, as a graph.
#[derive(Clone, Copy, Debug, PartialEq, Eq)]
enum Evidence {
    Proof,
    Tree,
    All,
    Dot,
}

fn usage(rt: &impl Print) -> io::Result<()> {
    print!(rt; "usage: show profile PROFILE | show proof PROFILE QUESTION PROOF | ")?;
    print!(rt; "show tree PROFILE QUESTION TREE | show all PROFILE QUESTION TREE | ")?;
    println!(rt; "show dot PROFILE QUESTION TREE")
}

fn profile(rt: &(impl Env + Files + Print)) -> io::Result<()> {
    let mut profile = [0u8; PROFILE_READ];
    let Some(count) = read_argument(rt, 2, &mut profile)? else {
        return Ok(());
    };
    show_profile(rt, &profile[..count])
}

fn show(
    rt: &impl Print,
    profile: &[u8],
    question: &[u8],
    third: &[u8],
    evidence: Evidence,
) -> io::Result<()> {
    match evidence {
        Evidence::Proof => show_proof(rt, profile, question, third),
        Evidence::Tree => show_tree(rt, profile, question, third, false),
        Evidence::All => show_tree(rt, profile, question, third, true),
        Evidence::Dot => show_dot(rt, profile, question, third),
    }
}

// A proof may have more bytes than a tree, so its room holds either, and one byte more than each may have.
fn show_evidence(rt: &(impl Env + Files + Print), evidence: Evidence) -> io::Result<()> {
    let mut profile = [0u8; PROFILE_READ];
    let mut question = [0u8; QUESTION_READ];
    let mut third = [0u8; PROOF_READ];
    let Some(first) = read_argument(rt, 2, &mut profile)? else {
        return Ok(());
    };
    let Some(second) = read_argument(rt, 3, &mut question)? else {
        return Ok(());
    };
    let Some(last) = read_argument(rt, 4, &mut third)? else {
        return Ok(());
    };
    show(
        rt,
        &profile[..first],
        &question[..second],
        &third[..last],
        evidence,
    )
}

fn main(rt: HostRuntime) -> io::Result<()> {
    let mut room = [0u8; WORD_ROOM];
    match (word_count(&rt), word_argument(&rt, 1, &mut room)) {
        (PROFILE_WORDS, b"profile") => profile(&rt),
        (EVIDENCE_WORDS, b"proof") => show_evidence(&rt, Evidence::Proof),
        (EVIDENCE_WORDS, b"tree") => show_evidence(&rt, Evidence::Tree),
        (EVIDENCE_WORDS, b"all") => show_evidence(&rt, Evidence::All),
        (EVIDENCE_WORDS, b"dot") => show_evidence(&rt, Evidence::Dot),
        _ => usage(&rt),
    }
}
