ghost use Rattle.std.specs.Prelude.{◌≡◌, IfOk};
ghost use Rattle.integer_splits.specs.Answer.{open_nodes};
ghost use Rattle.integer_splits.specs.Boxes.{opened as opened_node};

use proof_term::{Node, Nodes, OpenNode, OpenNodes};
use std::alloc::Global;
use wx_base::{Copied, NoMemory};

/// The nodes of a tree that isn't finished: those so far, and a pending one for each box that is
/// left.
pub(crate) fn opened(alloc: Global, nodes: &Nodes, left: usize) -> Result<OpenNodes, NoMemory>
    ensures { IfOk result (λ tree. tree ≡ open_nodes nodes.now left) }
{
    let mut tree = OpenNodes::new(alloc);
    for node in nodes.items() {
        tree.push(open_node(alloc, node)?)?;
    }
    for _box in 0..left {
        tree.push(OpenNode::Pending)?;
    }
    Ok(tree)
}

fn open_node(alloc: Global, node: &Node) -> Result<OpenNode, NoMemory>
    ensures { IfOk result (λ tree. tree ≡ opened_node node.now) }
{
    match node {
        Node::Leaf(farkas) => Ok(OpenNode::Leaf(farkas.copy(alloc)?)),
        Node::Split { var, at } => Ok(OpenNode::Split { var: *var, at: *at }),
    }
}
