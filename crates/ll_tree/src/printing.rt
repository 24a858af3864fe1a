//! The canonical text of a tree.

mod block;
mod func;
mod instr;
mod token;

pub use func::print;
