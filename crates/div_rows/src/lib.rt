//! The pieces of a function's system that stand for division and remainder by a constant, the absolute value, and the lesser and the greater of two numbers.
//!
//! The definitions stand in `specs/`, the trait of a piece in wrap_rows.
#![tactic(auto)]

mod abs;
mod division;
mod extreme;
mod reading;
mod signed_division;
mod unless;
mod unsigned_division;

pub use abs::Abs;
pub use division::DivisionKind;
pub use extreme::{Extreme, ExtremeKind};
pub use signed_division::SignedDivision;
pub use unless::{add_equation_unless, what_an_equation_with_an_exception_says};
pub use unsigned_division::UnsignedDivision;
