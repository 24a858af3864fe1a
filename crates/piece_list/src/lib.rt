//! The variables and pieces of a function's values: parameters, then phis and instructions in the kept order of
//! their blocks.
#![tactic(auto)]

mod blocks;
mod draft;
mod items;
mod list;
mod params;
mod place;

pub use draft::Declared;
pub use list::declare_values;
