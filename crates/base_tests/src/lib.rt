//! Tests of names and lists, called from outside.
//! They stand in a crate of their own, since a crate with tests is proved twice.
#![tactic(auto)]

#[cfg(test)]
mod closed_lists;
#[cfg(test)]
mod names_and_lists;
