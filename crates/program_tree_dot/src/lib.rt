// The same as `program_tree_text` as a graph for Graphviz (`show dot`). What is marked is `op_tree::keep`'s answer; nothing that decides anything
// stands here.
#![tactic(auto)]

mod graph;

use crate::graph::print_graph;
use program_tree_marks::shown::show;
use std::io;

// A tree that breaks the question as a graph; else what the tree check says.
pub fn show_dot(rt: &impl Print, profile: &[u8], question: &[u8], tree: &[u8]) -> io::Result<()> {
    show(
        rt,
        profile,
        question,
        tree,
        |broken| print_graph(rt, broken),
    )
}
