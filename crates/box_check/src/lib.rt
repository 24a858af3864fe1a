//! Bounds in force, with what they were before, so that a box is entered and left without a copy of
//! it.
#![tactic(auto)]

mod bounds;
mod hints;

pub use bounds::{Bounds, Change, End};
pub use hints::{Clauses, Open, propagates};
