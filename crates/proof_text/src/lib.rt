//! The text of proofs, one line at a time: what a line says, and that it has the form of a line but a number out of range.
#![tactic(auto)]

mod digits;
mod line;
mod literal;
mod number;
mod reading;
mod words;

pub use line::{Kind, Line, LineRead, Multiple, Multiples, Version, read};
pub use reading::Reading;
