//! Tables that give each block and each edge of a function its cost.
//!
//! The first line is `wcet costs 1` or `wcet costs 2`. Each further line is empty, a comment that begins with
//! `;`, the local name of a block, a space and its cost, or, in version 2, the local names of two blocks, each
//! with a space behind it, and the cost of the edge between them. Lines end with LF or CR LF; the last may lack
//! its end. A cost is 0 to 4294967295 without leading zeros. Each block has one line; an edge without one
//! costs 0.
#![tactic(auto)]

mod costs;
mod digits;
mod entry;
mod ledger;
mod line;
mod name_end;
mod places;

pub use costs::{CostFault, Costs, read_costs};
pub use places::edge_between;

#[cfg(test)]
mod tests;
