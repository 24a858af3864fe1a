//! The answer to the text of a proof, by its lines: whether it is valid, and if not, which line
//! fails first and why.
#![tactic(auto)]

mod base;
mod checker;
mod first_lines;
mod kept;
mod laws;
mod line;
mod nodes;
mod steps;
mod verdict;

pub use checker::{Checker, Fed, check};
pub use laws::{
    checked_texts_bound, texts_have_one_verdict, valid_proofs_pass, valid_texts_have_a_proof,
};
pub use verdict::{Reason, Verdict};
