//! Points of a function's system are its runs, and its runs are such points: over the parts of which the system
//! consists, the layout of paths and the pieces of the function's values.
#![tactic(auto)]

mod laws;

pub use laws::{points_are_runs, runs_are_points};
