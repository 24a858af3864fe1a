//! Clause learning and the simplex with splits as one solver of systems, whose refusals are lists of
//! valid steps.
#![tactic(auto)]

mod choose;
mod mix;
mod mixed;
mod solving;

pub use mix::Mix;
pub use mixed::Mixed;
