ghost use Rattle.std.specs.Prelude.{◌<◌, All, IfOk};
ghost use Rattle.block_order.specs.Order.{Orders, HasEach, LeavesNoCycle};

use crate::cycle::cycle_from;
use crate::ready::{first_false, next_ready};
use flow_graph::Edge;
use std::alloc::Global;
use wx_base::{NoMemory, Sequence};

/// Blocks by their places.
pub type Places = Sequence<u32>;

/// What is found of a graph.
#[derive(Debug, Drop)]
pub enum Ordered {
    /// All blocks in the kept order.
    Order(Places),
    /// Blocks of which each has an edge to the next and the last to the first, which has the least place.
    Cycle(Places),
}

/// The kept order of a graph with so many blocks or, where it has none, a cycle.
pub fn kept_order(alloc: Global, blocks: u32, edges: &[Edge]) -> Result<Ordered, NoMemory>
    requires { All (λ edge. (edge.from < blocks) × (edge.to < blocks)) edges.now }
    ensures orders { IfOk result (Orders blocks edges.now) }
    ensures size { IfOk result (HasEach blocks) }
    ensures acyclic { IfOk result (LeavesNoCycle edges.now) }
{
    let mut taken = vec![in alloc; false; blocks as usize]?;
    let mut blocked = vec![in alloc; false; blocks as usize]?;
    let mut order = Vec::new(alloc);
    while let Some(block) = next_ready(edges, &taken, &mut blocked) {
        taken[block as usize] = true;
        order.push(block)?;
    }
    match first_false(&taken) {
        None => Ok(Ordered::Order(Sequence::from_vec(order))),
        Some(start) => {
            let cycle = cycle_from(alloc, edges, &taken, start)?;
            Ok(Ordered::Cycle(Sequence::from_vec(cycle)))
        }
    }
}
