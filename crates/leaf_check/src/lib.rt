//! Whether a combination of literals adds up to a contradiction, with every sum in 128 bits.
#![tactic(auto)]

mod combined;
mod product;
mod settle;
mod sums;

pub use combined::Combined;
pub use sums::Sums;
