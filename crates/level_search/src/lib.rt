//! The search on one level of a proof: clauses, cuts and a goal, where each clause that is learnt
//! is logged as a valid step.
#![tactic(auto)]

mod bounds;
mod learning;
mod level;
mod log;

pub use learning::Learning;
pub use level::LevelSearch;
