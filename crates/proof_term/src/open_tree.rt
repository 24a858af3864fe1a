use mix_system::Farkas;
use std::alloc::Global;
use wx_base::{Copied, NoMemory, Sequence};

/// A node of a tree that isn't finished.
#[derive(Debug, Drop)]
pub enum OpenNode {
    /// The box isn't worked yet.
    Pending,
    /// The box is refuted by a sum.
    Leaf(Farkas),
    /// The box is halved: first `var <= at`, then `var >= at + 1`.
    Split { var: u32, at: i128 },
}

/// Nodes in pre-order.
pub type OpenNodes = Sequence<OpenNode>;

/// A tree of splits some of whose boxes aren't worked yet. It is whole where no node is `Pending`.
#[derive(Debug, Drop)]
pub struct OpenTree {
    pub nodes: OpenNodes,
}

impl Copied for OpenNode {
    fn copy(&self, alloc: Global) -> Result<OpenNode, NoMemory> {
        match self {
            OpenNode::Pending => Ok(OpenNode::Pending),
            OpenNode::Leaf(farkas) => Ok(OpenNode::Leaf(farkas.copy(alloc)?)),
            OpenNode::Split { var, at } => Ok(OpenNode::Split { var: *var, at: *at }),
        }
    }
}

impl Copied for OpenTree {
    fn copy(&self, alloc: Global) -> Result<OpenTree, NoMemory> {
        let nodes = self.nodes.copy(alloc)?;
        Ok(OpenTree { nodes })
    }
}
