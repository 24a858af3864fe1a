//! What each operation of the language computes.
//!
//! A value is poison or a number of a width, 0 to `2^width - 1`; widths are 1 to 32. Each operation is an exact formula on whole numbers.
//! No call takes memory.
#![tactic(auto)]

mod arithmetic;
mod compare;
mod convert;
mod divide;
mod operations;
mod shift;
mod value;
mod whole;

pub use operations::{abs, bin, cast, cmp};
pub use value::{Val, select};
