//! Laws of the canonical text: it has the tokens of its pieces, and they spell its tree. Each is the contract
//! of a function that does nothing.
#![tactic(auto)]

mod laws;

pub use laws::{
    canonical_text_has_its_tokens, canonical_text_is_read_back, canonical_text_spells_its_tree,
    names_have_a_byte, shown_tokens_spell_the_tree,
};
