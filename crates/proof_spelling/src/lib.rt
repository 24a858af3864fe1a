//! The text of whole proofs: what prints it, and what reads it again.
#![tactic(auto)]

mod draft;
mod laws;
mod parsing;
mod printing;
mod writing;

pub use laws::{
    complete_proofs_have_a_text, faulty_texts_spell_nothing, proofs_have_one_text,
    texts_have_one_fault, texts_spell_one_proof,
};
pub use parsing::{TextFault, parse};
pub use printing::print;
