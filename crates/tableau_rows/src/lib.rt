//! Equations of a simplex tableau over whole numbers of 128 bits, and the substitution of one into another.
//!
//! An equation is a list of columns with coefficients that add up to 0, solved for one of its columns.
//! What doesn't fit into 128 bits is named as a step that would overflow.
#![tactic(auto)]

mod entry;
mod equation;
mod merge;
mod quotient;
mod reduction;
mod solved;
mod substitution;

pub use entry::Entry;
pub use equation::Equation;
