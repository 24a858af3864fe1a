//! What a function's paths have to keep: no block lies on a cycle, each block is reached, and each value is
//! given on every path before it is used. Paths are lists of labels.
#![tactic(auto)]

mod graph;
mod homes;
mod not_defined;
mod uses;

pub use graph::{Labels, first_unreached, flow_of};
pub use homes::{Home, homes_of};
pub use not_defined::{NotDefined, first_undefined};
