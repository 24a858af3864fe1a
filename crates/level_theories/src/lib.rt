//! Theories on one level of a proof: trees that refute the bounds in force, and a goal that the
//! level's bounds contradict.
#![tactic(auto)]

mod excluded;
mod goal;
mod latest;
mod theory;

pub use goal::refute_goal;
pub use theory::refuted;
