use mix_system::Farkas;
use std::alloc::Global;
use wx_base::{Copied, NoMemory, Sequence};

/// A node of a tree that refutes a box of bounds.
#[derive(Debug, Drop)]
pub enum Node {
    /// The box is refuted by a sum.
    Leaf(Farkas),
    /// The box is halved: first `var <= at`, then `var >= at + 1`.
    Split { var: u32, at: i128 },
}

/// Nodes in pre-order: a split, then the nodes of its low half, then those of its high half.
pub type Nodes = Sequence<Node>;

/// A tree of splits that ends in leaves, as a flat list of nodes.
#[derive(Debug, Drop)]
pub struct Tree {
    pub nodes: Nodes,
}

impl Copied for Node {
    fn copy(&self, alloc: Global) -> Result<Node, NoMemory> {
        match self {
            Node::Leaf(farkas) => Ok(Node::Leaf(farkas.copy(alloc)?)),
            Node::Split { var, at } => Ok(Node::Split { var: *var, at: *at }),
        }
    }
}

impl Copied for Tree {
    fn copy(&self, alloc: Global) -> Result<Tree, NoMemory> {
        let nodes = self.nodes.copy(alloc)?;
        Ok(Tree { nodes })
    }
}
