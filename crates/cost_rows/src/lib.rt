//! Rows that sum up what a path spends: in all blocks, in a portion, in a region.
#![tactic(auto)]

mod flags;
mod laws;
mod parts;
mod rows;
mod vars;

pub use laws::rows_sum_up_what_is_spent;
pub use rows::{add_cost_row, add_portion_row, add_region_row};
pub use vars::PathVars;
