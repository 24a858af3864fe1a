//! Word tables: the words that each place of an LLVM function's text may hold, found by their bytes.
//! Nothing here takes memory.
#![tactic(auto)]

mod word_table;
mod words;

pub use word_table::WordTable;
pub use words::{
    attribute_words, call_words, flag_words, header_words, opcode_words, predicate_words,
    terminator_words, valued_call_names, void_call_names,
};

#[cfg(test)]
mod tests;
