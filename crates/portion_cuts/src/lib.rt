//! Portions of a function between the positions that no edge passes over, and what a path spends in
//! one of them at most.
#![tactic(auto)]

mod best;
mod cuts;
mod laws;
mod portion;

pub use best::{block_at, longest};
pub use cuts::portions;
pub use laws::{
    entry_stands_first, portions_cover_all_blocks, spending_adds_up, walks_are_paths_by_positions,
};
pub use portion::{Portion, Region};
