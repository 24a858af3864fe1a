//! The tokens of LLVM text, with the line and the place of each, or the first fault.
//! Every sequence of bytes has an answer, found in one pass; tokens are spans, and no byte is copied.
#![tactic(auto)]

mod blanks;
mod bytes;
mod escapes;
mod lexeme;
mod naming;
mod scan;
mod token;

pub use naming::{local_name, name_of};
pub use scan::{one_answer, tokens};
pub use token::{FaultKind, Token, TokenFault, TokenKind};

#[cfg(test)]
mod tests;
