//! The pieces of a function's values read only the spots of what is given before: they are the same over all spots
//! that agree on these.
#![tactic(auto)]

mod laws;

pub use laws::pieces_read_what_is_given;
