//! The grammar of LLVM functions over tokens: what the tokens of a function's text spell, and the first
//! token with which they can't go on.
#![tactic(auto)]

mod block;
mod call;
mod cursor;
mod debug;
mod expect;
mod function;
mod header;
mod instruction;
mod naming;
mod opcodes;
mod operand;
mod stop;
mod terminator;
mod words;

pub use cursor::Cursor;
pub use function::read_function;
pub use stop::{Place, Refusal, Stop};
