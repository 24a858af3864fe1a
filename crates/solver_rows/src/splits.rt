use crate::calm::may_be_solved;
use crate::literals::push;
use crate::systems::no_call;
use bounded_simplex::Simplex;
use integer_splits::{Split, solve, solve_kept};
use mix_system::{Farkas, Tally};
use proof_term::{Node, OpenNode, OpenNodes, OpenTree};
use std::alloc::Global;
use wx_base::NoMemory;

// A whole point inside the bounds in force, or a tree that refutes them.
pub fn solved(
    alloc: Global,
    simplex: &mut Simplex<'_>,
    tally: &mut Tally,
) -> Result<String, NoMemory> {
    if !may_be_solved(simplex) {
        return no_call(alloc);
    }
    found(alloc, &solve(alloc, simplex, tally)?)
}

// The same, and the tree so far.
pub fn solved_kept(
    alloc: Global,
    simplex: &mut Simplex<'_>,
    tally: &mut Tally,
) -> Result<String, NoMemory> {
    if !may_be_solved(simplex) {
        return no_call(alloc);
    }
    let mut kept = OpenTree {
        nodes: OpenNodes::new(alloc),
    };
    kept.nodes.push(OpenNode::Pending)?;
    let split = solve_kept(alloc, simplex, tally, &mut kept)?;
    let mut told = found(alloc, &split)?;
    told.push_str("kept")?;
    for node in kept.nodes.items() {
        push_open_node(alloc, &mut told, node)?;
    }
    told.push_str("; ")?;
    Ok(told)
}

fn found(alloc: Global, split: &Split) -> Result<String, NoMemory> {
    match split {
        Split::Point(point) => Ok(format!(in alloc; "whole {:?}; ", point.items())?),
        Split::Refuted(tree) => refuted(alloc, tree.nodes.items()),
        Split::Spent => Ok(String::from_str(alloc, "spent; ")?),
    }
}

fn refuted(alloc: Global, nodes: &[Node]) -> Result<String, NoMemory> {
    let mut line = String::from_str(alloc, "refuted by")?;
    for node in nodes {
        push_node(alloc, &mut line, node)?;
    }
    line.push_str("; ")?;
    Ok(line)
}

fn push_node(alloc: Global, line: &mut String, node: &Node) -> Result<(), NoMemory> {
    match node {
        Node::Split { var, at } => push_split(alloc, line, *var, *at),
        Node::Leaf(farkas) => push_leaf(alloc, line, farkas),
    }
}

fn push_open_node(alloc: Global, line: &mut String, node: &OpenNode) -> Result<(), NoMemory> {
    match node {
        OpenNode::Split { var, at } => push_split(alloc, line, *var, *at),
        OpenNode::Leaf(farkas) => push_leaf(alloc, line, farkas),
        OpenNode::Pending => {
            line.push_str(" / pending")?;
            Ok(())
        }
    }
}

fn push_split(alloc: Global, line: &mut String, var: u32, at: i128) -> Result<(), NoMemory> {
    line.push_str(format!(in alloc; " / split v{var} {at}")?.as_str())?;
    Ok(())
}

fn push_leaf(alloc: Global, line: &mut String, farkas: &Farkas) -> Result<(), NoMemory> {
    line.push_str(" / leaf")?;
    push_parts(alloc, line, farkas)
}

/// Each bound of a refutation with its multiplier.
pub fn push_parts(alloc: Global, line: &mut String, farkas: &Farkas) -> Result<(), NoMemory> {
    for part in farkas.parts.items() {
        line.push_str(format!(in alloc; " {}", part.by)?.as_str())?;
        push(alloc, line, &part.lit)?;
    }
    Ok(())
}
