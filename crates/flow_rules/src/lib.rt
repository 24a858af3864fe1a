//! Which blocks a function reaches, and on which paths a value is defined before it is used, over numbers in
//! place of names. Blocks are numbered by their places in the file; the entry is the first.
//!
//! A value is given in one block, so it is defined on every path to a use exactly where no path around that
//! block reaches the use (T. Lengauer and R. Tarjan, A Fast Algorithm for Finding Dominators in a Flowgraph,
//! 1979).
#![tactic(auto)]

mod flow;
mod layout;
mod rows;
mod usage;

pub use flow::{Flow, FlowFault};
pub use usage::Use;
