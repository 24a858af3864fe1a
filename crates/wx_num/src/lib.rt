//! Whole numbers of 128 bits: exact sums, differences and products, or the name of the step that would overflow; greatest common divisors and floors of quotients.
//!
//! No call takes memory.
#![tactic(auto)]

mod excess;
mod gcd;
mod number;

pub use excess::{Excess, NumOp};
pub use number::Num;
