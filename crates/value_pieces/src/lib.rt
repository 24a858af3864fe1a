//! The pieces of a function's phis and instructions, over the variables of its blocks, edges and values.
#![tactic(auto)]

mod operand;
mod operation;
mod phi;

pub use operation::op_piece;
pub use phi::phi_piece;
