//! The edges of a function by the places of its blocks.
#![tactic(auto)]

mod graph;

pub use graph::graph_of;
