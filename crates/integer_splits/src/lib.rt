//! Whole points of systems of bounded variables and rows, by halving the ranges of variables.
#![tactic(auto)]

mod found;
mod half;
mod halving;
mod kept;
mod search;
mod solving;
mod split;
mod whole;
mod work;

pub use half::Half;
pub use solving::{solve, solve_kept};
pub use split::Split;
