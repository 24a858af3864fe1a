//! A piece names no variables but those of its operands and its own: whether it holds is the same wherever all others
//! differ.
#![tactic(auto)]

mod laws;

pub use laws::{a_piece_names_its_operands_alone, cases_change_no_piece, cases_in_order_are_apart};
