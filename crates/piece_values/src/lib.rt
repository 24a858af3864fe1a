//! What the pieces of a function say of its values at a point where they hold: the values along the path that
//! the point takes.
#![tactic(auto)]

mod laws;

pub use laws::{
    filled_points_are_known, pieces_can_be_filled_in_their_order,
    pieces_tell_the_values_along_a_path,
};
