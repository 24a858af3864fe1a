//! Numbers in place of the names of a function: which value an operand is, which block a label, and which value
//! an item gives.
#![tactic(auto)]

mod laws;
mod link;
mod numbers;
mod starts;
mod table;

pub use laws::items_of_a_block;
pub use link::{BlockId, Links, Position, Source, ValueId};
pub use numbers::{block_of, result_of, source_of};
pub use table::{LinkTable, resolve};
