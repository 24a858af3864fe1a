//! Reads a function in a file of textual LLVM IR.
#![tactic(auto)]

mod define_line;
mod fault;
mod finder;
mod lines;
mod reader;

pub use fault::ReadFault;
pub use reader::{one_answer, read};
