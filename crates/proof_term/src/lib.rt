//! Proofs that a system of rows and clauses bounds its cost: trees of splits, steps with their levels, and what makes them valid.
#![tactic(auto)]

mod find;
mod laws;
mod open_tree;
mod partial;
mod proof;
mod step;
mod tree;

pub use find::{Find, Finds};
pub use laws::{
    closed_level_is_valid, cuts_are_bounds, nothing_is_valid, one_more_step_is_valid,
    partial_cuts_are_bounds, refuted_boxes_are_empty, valid_proofs_bound, valid_proofs_stay_valid,
};
pub use open_tree::{OpenNode, OpenNodes, OpenTree};
pub use partial::{PartLevel, PartLevels, Partial};
pub use proof::{Goal, Proof, Shape};
pub use step::{MOST_NESTED, Step, Steps};
pub use tree::{Node, Nodes, Tree};
