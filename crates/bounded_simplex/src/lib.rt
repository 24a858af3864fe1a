//! The exact simplex over systems of bounded variables and rows.
#![tactic(auto)]

mod anew;
mod bounds;
mod broken;
mod check;
mod combination;
mod entering;
mod excess;
mod fault;
mod laws;
mod listing;
mod mended;
mod mending;
mod ratio;
mod reach;
mod refutation;
mod settle;
mod simplex;
mod sums;
mod tableau;
mod uses;
mod value;

pub use bounds::{Bounds, Mark};
pub use check::Check;
pub use excess::{Place, TableauExcess};
pub use laws::equations_cancel_out;
pub use listing::Listing;
pub use ratio::Ratio;
pub use reach::Reach;
pub use refutation::{contradiction, first_contradiction, refute};
pub use simplex::Simplex;
pub use sums::refute_sums;
pub use tableau::{PivotExcess, Tableau};
