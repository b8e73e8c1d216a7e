// `show dot`: the tree as a graph for Graphviz, the root at the left. Colours by Okabe and Ito, "readable in print and for the colour-blind": each
// mark has its word and its shape or its pen as well.
use program_tree_marks::marks::{Broken, Pair};
use program_tree_marks::nodes::{node, node_count, parent_of, print_text};
use std::io;

fn print_head(rt: &impl Print) -> io::Result<()> {
    println!(rt; "graph tree {{")?;
    println!(rt;
        "  graph [rankdir=LR, fontname=\"Helvetica\", fontsize=14, ranksep=0.45, nodesep=0.45];"
    )?;
    println!(rt;
        "  node [fontname=\"Helvetica\", fontsize=14, shape=ellipse, style=filled, fillcolor=\"#ffffff\", color=\"#555555\"];"
    )?;
    println!(rt; "  edge [fontname=\"Helvetica\", fontsize=14, color=\"#555555\"];")
}

// The colours of the pairs, in turn
fn colour(j: usize) -> &'static str {
    match j {
        0 => "#d55e00",
        1 => "#009e73",
        2 => "#cc79a7",
        _ => "#0072b2",
    }
}

const CONTEXT_LOOK: &str = ", shape=house, fillcolor=\"#f0e442\"";

const FIRST_LOOK: &str = ", shape=box, peripheries=2, fillcolor=\"#56b4e9\"";

const SECOND_LOOK: &str = ", shape=hexagon, fillcolor=\"#56b4e9\"";

// Shape and fill are those of a node's first mark.
fn look(broken: &Broken, n: usize) -> &'static str {
    if n == broken.witness.context {
        CONTEXT_LOOK
    } else if n == broken.witness.first {
        FIRST_LOOK
    } else if n == broken.witness.second {
        SECOND_LOOK
    } else {
        ""
    }
}

// The pen is that of an equal pair.
fn print_pen(rt: &impl Print, j: usize) -> io::Result<()> {
    print!(rt; ", penwidth=3, color=\"{}\"", colour(j))
}

fn print_node(rt: &impl Print, broken: &Broken, n: usize) -> io::Result<()> {
    print!(rt; "  n{n} [label=\"{n} ")?;
    print_text(rt, broken.profile, node(broken.tree, n))?;
    if broken.has_mark(n) {
        print!(rt; "\\n")?;
        broken.print_marks(rt, n)?;
    }
    print!(rt; "\"{}", look(broken, n))?;
    if let Some(j) = broken.first_pair(n) {
        print_pen(rt, j)?;
    }
    println!(rt; "];")
}

fn print_nodes(rt: &impl Print, broken: &Broken) -> io::Result<()> {
    for n in 0..node_count(broken.tree) {
        if broken.is_shown(n, false) {
            print_node(rt, broken, n)?;
        }
    }
    Ok(())
}

// Each node to its parent; the root has none.
fn print_edges(rt: &impl Print, broken: &Broken) -> io::Result<()> {
    for n in 1..node_count(broken.tree) {
        if broken.is_shown(n, false) {
            let parent = parent_of(node(broken.tree, n));
            println!(rt; "  n{parent} -- n{n};")?;
        }
    }
    Ok(())
}

// From the right side of one node to that of the other: between leaves it stays out of the tree. Its words are an `xlabel`, since a `label` would
// get a place among the nodes; the spaces keep them off the line.
fn print_pair(rt: &impl Print, pair: Pair, j: usize, path: &[u8]) -> io::Result<()> {
    print!(rt; "  n{} -- n{}", pair.x, pair.y)?;
    print!(rt;
        " [style=dashed, penwidth=2, constraint=false, tailport=e, headport=e, xlabel=\"  equal by "
    )?;
    rt.write_all(path)?;
    println!(rt; "  \", color=\"{}\"];", colour(j))
}

fn print_pairs(rt: &impl Print, broken: &Broken) -> io::Result<()> {
    for (j, pair) in broken.pairs().iter().take(broken.path_count()).enumerate() {
        print_pair(rt, *pair, j, broken.key_path(j))?;
    }
    Ok(())
}

fn print_legend_pair(rt: &impl Print, j: usize, path: &[u8]) -> io::Result<()> {
    print!(rt; "    legend_pair{j} [label=\"equal by ")?;
    rt.write_all(path)?;
    print!(rt; "\"")?;
    print_pen(rt, j)?;
    println!(rt; "];")
}

// Lines that are not seen keep the legend's nodes in one row.
fn print_legend_row(rt: &impl Print, count: usize) -> io::Result<()> {
    print!(rt; "    legend_context -- legend_first -- legend_second")?;
    for j in 0..count {
        print!(rt; " -- legend_pair{j}")?;
    }
    println!(rt; " [style=invis];")
}

fn print_legend(rt: &impl Print, broken: &Broken) -> io::Result<()> {
    println!(rt; "  subgraph cluster_legend {{")?;
    println!(rt; "    label=\"Legend\";")?;
    println!(rt; "    legend_context [label=\"context\"{CONTEXT_LOOK}];")?;
    println!(rt; "    legend_first [label=\"first target\"{FIRST_LOOK}];")?;
    println!(rt; "    legend_second [label=\"second target\"{SECOND_LOOK}];")?;
    for j in 0..broken.path_count() {
        print_legend_pair(rt, j, broken.key_path(j))?;
    }
    print_legend_row(rt, broken.path_count())?;
    println!(rt; "  }}")
}

pub fn print_graph(rt: &impl Print, broken: &Broken) -> io::Result<()> {
    print_head(rt)?;
    print_nodes(rt, broken)?;
    print_edges(rt, broken)?;
    print_pairs(rt, broken)?;
    print_legend(rt, broken)?;
    println!(rt; "}}")
}
