//! The values along a path of a function, when there is a value for each name.
#![tactic(auto)]

mod laws;

pub use laws::{
    a_way_with_values_that_leads_on_is_a_walk, operands_on_a_way_are_known,
    values_on_a_way_are_one, walks_go_a_way,
};
