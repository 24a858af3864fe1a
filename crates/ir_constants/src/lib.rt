//! The constants of a function that have a variable of their own in its system, in the order of their first
//! use.
#![tactic(auto)]

mod constants;
mod laws;

pub use constants::Constants;
pub use laws::{constants_are_few, counted_constants_have_their_variables};
