//! The core of `wcet`: what a function costs at most, and on which arguments.
#![tactic(auto)]

mod answer;
mod command;
mod edge;
mod ended;
mod laws;
mod limits;
mod machine;
mod priced;
mod single;
mod trial;
mod work;
mod worst;

pub use command::run;
pub use edge::{NoWords, exit_code, words_of};
pub use limits::{BRUTE_BITS, COSTS_LIMIT, FILE_LIMIT, TRIAL_BITS};
pub use trial::{Best, Machine, try_all};
