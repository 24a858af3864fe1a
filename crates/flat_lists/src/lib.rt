//! A list of lists, kept in one flat vector.
#![tactic(auto)]

mod lists;

pub use lists::FlatLists;
