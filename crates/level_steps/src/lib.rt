//! The steps of one level of a proof, by local numbers: when they are valid, and what they say.
//! Each law is the contract of a function that does nothing.
#![tactic(auto)]

mod laws;

pub use laws::{
    ended_levels_are_proofs, ended_levels_have_no_point, steps_go_on, steps_stay_valid,
};
