//! Runs a function on arguments: which blocks are visited, what is returned, and what that costs.
#![tactic(auto)]

mod block;
mod code;
mod costs;
mod lower;
mod range;
mod runner;

pub use block::is_one;
pub use code::{BlockCode, CaseCode, Exit, Jump, Pair, PhiMove, Step, StepOp};
pub use costs::PathCosts;
pub use lower::code_of;
pub use range::is_in_range;
pub use runner::{Runner, count_values};
