//! The pieces of the operations that go bit by bit, over the trait of `wrap_rows`, and the block that they share: the bits of a number.
//!
//! The definitions stand in `specs/`; the laws are contracts of functions that do nothing.
#![tactic(auto)]

mod bits;
mod bitwise;
mod laws;

pub use bits::{BitVars, add_bit_vars, add_bits_row, put_bits};
pub use bitwise::{BitKind, BitOperand, Bitwise};
pub use laws::{what_a_bit_says, what_bits_say};
