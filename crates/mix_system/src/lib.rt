//! Systems of bounded variables, rows and clauses; the points that fit them; and the tally of a search's work.
//!
//! A row is a sum of variables with coefficients. A literal bounds a variable or a row from one side, and a clause is a list of literals of which one has to be true.
//! A point, one number for each variable, fits a system where each number lies in its variable's range and each clause has a true literal.
#![tactic(auto)]

mod farkas;
mod holds;
mod laws;
mod literal;
mod row;
mod system;
mod tally;

pub use farkas::{Farkas, FarkasPart, FarkasParts};
pub use laws::{
    a_refuted_box_has_no_point, one_of_a_literal_and_its_negation, what_a_box_says_is_true,
    what_follows_is_true,
};
pub use literal::{Lit, Lits, Side, Term, Terms};
pub use row::Part;
pub use system::System;
pub use tally::{Tally, Work};
use wx_base::Sequence;

/// A list of whole numbers.
pub type Numbers = Sequence<i128>;

/// A list of the numbers of clauses, in the order in which they are used.
pub type Hints = Sequence<u32>;
