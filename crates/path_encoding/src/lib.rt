//! The part of a function's system by which points have one path: rows of flow, and the clauses of
//! blocks, edges, cases, assumes and ends.
#![tactic(auto)]

mod block;
mod exit;
mod fill;
mod laws;
mod laying;
mod lits;
mod path;
mod place;
mod rows;
mod spots;
mod switch;
mod vars;

pub use fill::{fill_cases, fill_path};
pub use laws::{
    a_path_marks_its_blocks_and_edges, a_path_that_returns_makes_it_hold, a_point_has_one_path,
    blocks_and_edges_tell_the_path, the_path_returns, what_paths_lay_is_little,
};
pub use laying::lay;
pub use path::path_at;
pub use place::count_cases;
pub use spots::{ConstSpot, PathSpots};
