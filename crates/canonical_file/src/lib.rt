//! Laws of a file that is a canonical text. Each is the contract of a function that does nothing.
#![tactic(auto)]

mod laws;

pub use laws::canonical_file_is_read_back;
