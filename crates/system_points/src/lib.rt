//! A function's system as a whole, and that its points are the function's runs.
#![tactic(auto)]

mod laws;

pub use laws::{points_of_a_system_are_runs, runs_are_points_of_a_system};
