//! The open levels of a proof with the box of the last of them: what a lemma asks, and how levels
//! open and close.
#![tactic(auto)]

mod available;
mod ended;
mod filling;
mod lemma;
mod levels;
mod names;
mod stack;

pub use available::Available;
pub use ended::{EndedSteps, StepMark};
pub use lemma::{Shown, assume, follow_hints};
pub use levels::OpenLevels;
pub use names::{has_term, names_terms};
pub use stack::{LevelMark, LevelStack};
