// A tree that breaks a question, for a person to read: indented lines (`show tree`, `show all`) with the nodes of the first witness marked. What is
// marked is `op_tree::keep`'s answer; nothing that decides anything stands here.
#![tactic(auto)]

mod lines;
mod order;

use crate::lines::print_lines;
use program_tree_marks::shown::show;
use std::io;

// A line for each node of a tree that breaks the question, all or all but the attributes that only fill; else what the tree check says.
pub fn show_tree(
    rt: &impl Print,
    profile: &[u8],
    question: &[u8],
    tree: &[u8],
    all: bool,
) -> io::Result<()> {
    show(
        rt,
        profile,
        question,
        tree,
        |broken| print_lines(rt, broken, all),
    )
}
