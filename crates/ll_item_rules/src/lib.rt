//! What is asked of each item of a function: names that are there, widths that agree, cases that differ and
//! constants where they have to stand. The first item that breaks a rule is found by one walk.
#![tactic(auto)]

mod cases;
mod constants;
mod lacking;
mod value_table;
mod walk;
mod widths;

pub use cases::{RepeatedCase, repeated_case};
pub use constants::{BadDivisor, NotLinear};
pub use lacking::{Lacking, lacking_name};
pub use value_table::ValueTable;
pub use walk::{SiteTest, first_site};
pub use widths::TypeDiffers;
