//! The names, values and items of a function of LLVM IR as flat lists, in the order of its text.
#![tactic(auto)]

mod names;
mod parts;
mod sites;
mod values;

pub use names::{NameList, list_labels, list_names};
pub use parts::{PartRef, Parts, push_parts};
pub use sites::{ItemRef, SiteRef, Sites, list_sites};
pub use values::{ValueRef, Values, list_values};
