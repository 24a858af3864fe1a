ghost use Rattle.std.specs.Prelude.{◌≡◌, map, IfOk};
ghost use Rattle.ll_links.specs.Links.{block_id};
ghost use Rattle.ll_verifier.specs.Order.{position_edge};

use flow_graph::Edge;
use ll_links::{BlockId, Position};
use std::alloc::Global;
use wx_base::NoMemory;

/// An edge between blocks, by their positions in the kept order.
#[derive(Clone, Copy, Debug, PartialEq, Eq)]
pub struct PositionEdge {
    pub from: Position,
    pub to: Position,
}

// Places as numbers of blocks.
pub fn list_blocks(alloc: Global, order: &[u32]) -> Result<Vec<BlockId>, NoMemory>
    ensures { IfOk result (λ blocks. blocks.items ≡ map block_id order.now) }
{
    let mut blocks = Vec::new(alloc);
    for place in order {
        blocks.push(BlockId(*place))?;
    }
    Ok(blocks)
}

// Edges whose ends are positions.
pub fn list_edges(alloc: Global, edges: &[Edge]) -> Result<Vec<PositionEdge>, NoMemory>
    ensures { IfOk result (λ list. list.items ≡ map position_edge edges.now) }
{
    let mut list = Vec::new(alloc);
    for edge in edges {
        list.push(PositionEdge {
            from: Position(edge.from),
            to: Position(edge.to),
        })?;
    }
    Ok(list)
}
