//! Points of a function's system and its runs: where a point takes a path and tells the values along it, that
//! is a run, and where a run takes the path of such a point, the rows and clauses of paths hold.
#![tactic(auto)]

mod laws;

pub use laws::{a_point_is_a_run, a_run_is_a_point};
