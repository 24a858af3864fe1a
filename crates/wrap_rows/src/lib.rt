//! The building blocks of a function's system: rows and clauses in normal form, and what the blocks that operations share say at a point.
//!
//! The definitions stand in `specs/`; the laws are contracts of functions that do nothing.
#![tactic(auto)]

mod blocks;
mod compare;
mod laws;
mod marks;
mod normal;
mod phi;
mod piece;
mod ranged;
mod scaled;
mod select;
mod sext;
mod shift_out;
mod shift_right;
mod sum;
mod trunc;
mod vars;
mod wrapping;
mod zext;

pub use blocks::{add_equation, add_sign, gap, greatest, is_marked, mark_of, power, sign_of};
pub use compare::Compare;
pub use laws::{
    what_a_comparison_says, what_a_sign_says, what_an_equation_says, what_is_compact_is_calm,
    what_is_laid_says_what_the_layout_says, what_marks_say,
};
pub use marks::{add_marks, at_least, at_most, times};
pub use normal::{add_lits, add_sum};
pub use phi::{Incoming, Phi};
pub use piece::Piece;
pub use ranged::Ranged;
pub use scaled::{Scale, Scaled};
pub use select::Select;
pub use sext::Sext;
pub use shift_out::{ShiftKind, ShiftOut};
pub use shift_right::ShiftRight;
pub use sum::{Sum, SumKind};
pub use trunc::Trunc;
pub use vars::{ValueVars, value_at};
pub use zext::Zext;
