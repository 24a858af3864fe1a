use std::alloc::Global;
use wx_base::{Copied, NoMemory, Sequence};

/// An edge from one block to another.
#[derive(Clone, Copy, Debug, PartialEq, Eq, PartialOrd, Ord)]
pub struct Edge {
    pub from: u32,
    pub to: u32,
}

/// The edges of a graph.
pub type Edges = Sequence<Edge>;

impl Copied for Edge {
    fn copy(&self, _: Global) -> Result<Edge, NoMemory> {
        Ok(*self)
    }
}
