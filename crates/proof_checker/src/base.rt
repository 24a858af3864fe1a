use mix_system::{System, Term};
use std::alloc::Global;

/// What a text is checked over.
#[derive(Clone, Copy)]
pub struct Base<'a> {
    pub alloc: Global,
    pub system: &'a System,
    pub cost: Term,
}
