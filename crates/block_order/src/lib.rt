//! The order in which blocks are kept: again and again the block of least place whose predecessors have all
//! been taken (A. B. Kahn, Topological Sorting of Large Networks, 1962). Where there is none, a cycle.
#![tactic(auto)]

mod cycle;
mod order;
mod ready;

pub use order::{Ordered, Places, kept_order};
