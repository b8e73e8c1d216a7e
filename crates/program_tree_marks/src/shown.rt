// What `show tree` and `show dot` do alike, however the tree is laid out.
use crate::marks::Broken;
use crate::paths::key_paths;
use op_answers::Witness;
use op_tree::keep;
use op_write_line::write_line;
use program_files::ANSWER_ROOM;
use program_layout::parts::part;
use program_witness::print_keeping;
use std::io;

fn show_broken<F: FnOnce(&Broken) -> io::Result<()>>(
    rt: &impl Print,
    profile: &[u8],
    question: &[u8],
    tree: &[u8],
    witness: Witness,
    lay_out: F,
) -> io::Result<()>
    requires { F.IsAlwaysCallable lay_out }
{
    let mut answer = [0u8; ANSWER_ROOM];
    match write_line(profile, question, &mut answer) {
        Ok(used) => lay_out(&Broken {
            profile,
            tree,
            witness,
            paths: key_paths(part(&answer, 0, used)),
        }),
        Err(refusal) => println!(rt; "{refusal}"),
    }
}

// A tree that breaks the question is laid out; else what the tree check says is printed.
pub fn show<F: FnOnce(&Broken) -> io::Result<()>>(
    rt: &impl Print,
    profile: &[u8],
    question: &[u8],
    tree: &[u8],
    lay_out: F,
) -> io::Result<()>
    requires { F.IsAlwaysCallable lay_out }
{
    match keep(profile, question, tree) {
        Ok(Some(witness)) => show_broken(rt, profile, question, tree, witness, lay_out),
        kept => print_keeping(rt, kept),
    }
}
