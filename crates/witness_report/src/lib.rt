//! What `wcet` answers, and what it prints for each answer.
#![tactic(auto)]

mod answer;
mod outcome;
mod parts;
mod refusals;
mod report;

pub use answer::{Answer, Bounds, How, PortionBound, Which, Witness};
pub use outcome::{Outcome, Written};
pub use report::text;
