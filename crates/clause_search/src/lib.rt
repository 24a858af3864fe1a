//! The search over clauses: a store of clauses and a trail, propagation, decisions, going back, and
//! what conflicts teach.
//!
//! Literals are bounds on terms, so a literal may be true or false by another one's bound.
#![tactic(auto)]

mod analyse;
mod clause_trail;
mod kept;
mod laws;
mod learnt;
mod look;
mod marks;
mod pairs;
mod propagate;
mod search;
mod spread;
mod store;
mod watch_lists;
mod watches;

pub use laws::lower_levels_stay_quiet;
pub use learnt::Learnt;
pub use search::Search;
pub use spread::Spread;
