//! The boxes of a tree of splits that are left: how a split halves the first of them, and how a
//! leaf refutes it.
#![tactic(auto)]

mod boxes;

pub use boxes::{Half, OpenBoxes, Refuted, are_in};
