//! What the words of a command line ask for.
#![tactic(auto)]

mod arguments;
mod job;

pub use arguments::arguments_of;
pub use job::{Command, Job, job_of};
