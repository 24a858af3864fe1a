//! Runs a function on arguments over numbers alone, as long as no value is poison.
//!
//! The blocks are laid out for speed: the operation and the mask of its width resolved, the costs of an edge beside it,
//! a comparison with a constant and the branch on it in one. A run that meets poison, or an end that isn't laid out
//! here, is left: `ir_runner` then runs the arguments.
#![tactic(auto)]

mod block;
mod code;
mod fuse;
mod leave;
mod lower;
mod mask;
mod runner;

pub use code::{Fork, NumberBlock, NumberCase, NumberExit, NumberJump, NumberStep, Sum, SumConst};
pub use mask::Mask;
pub use runner::NumberRunner;
