//! The literals of a trail as bounds of a simplex.
#![tactic(auto)]

mod bounds;
mod depth;

pub use bounds::TrailBounds;
