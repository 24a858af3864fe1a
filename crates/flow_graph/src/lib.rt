//! Paths in a graph whose edges all lead forward: which blocks are reached around a given block, and a path
//! to each of them.
//!
//! A block dominates another where no path around it reaches the other (T. Lengauer and R. Tarjan, A Fast
//! Algorithm for Finding Dominators in a Flowgraph, 1979).
#![tactic(auto)]

mod edge;
mod path;
mod reach;
mod sorting;

pub use edge::{Edge, Edges};
pub use path::path_to;
pub use reach::mark_reached;
pub use sorting::sorted;
