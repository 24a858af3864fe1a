//! Whether the entries of a phi are those of the edges that lead to its block.
#![tactic(auto)]

mod counts;
mod firsts;
mod phis;

pub use phis::PhiEntriesDiffer;
