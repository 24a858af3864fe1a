//! The trail of a search over bounds: literals put one after another onto the ranges of variables,
//! in levels.
//!
//! A literal is true or false by the bounds in force, which are the ranges and the literals put so
//! far. What is put was neither.
#![tactic(auto)]

mod edge;
mod made;
mod trail;

pub use trail::BoundTrail;
