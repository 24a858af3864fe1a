//! Whether a function keeps the rules of its language, and what stands above needs of one that does: its order,
//! its edges, and numbers in place of its names.
#![tactic(auto)]

mod fault;
mod items;
mod laws;
mod order;
mod paths;
mod sound;
mod spot;
mod tables;

pub use fault::{Rejected, Spot, VerifyFault};
pub use items::check;
pub use laws::{one_answer, parameters_first};
pub use order::PositionEdge;
pub use paths::Checked;
pub use sound::{Sound, verify};
