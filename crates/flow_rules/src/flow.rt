ghost use Rattle.std.specs.Prelude.{◌≡◌, ◌<◌, ◌≤◌, ◌^◌, ◌↔◌, ℕ, List, length, slice_index, All, IsTrue, IfOk, IfErr, MatchOption};
ghost use Rattle.flow_graph.specs.Paths.{IsForward};
ghost use Rattle.block_order.specs.Order.{IsKeptOrder, IsClosed};
ghost use Rattle.flow_rules.specs.Flow.{IsFlow, IsWithin, IsCause};
ghost use Rattle.flow_rules.specs.Paths.{IsReached, AllReached, IsDefined, LeavesOut, IsFirstUnreached, IsFirstUndefined};

use crate::Use;
use crate::layout::{edges_of, places_of, positions_of};
use crate::rows::{Rows, row, rows_of};
use block_order::{Ordered, Places, kept_order};
use flow_graph::{Edge, Edges, path_to};
use std::alloc::Global;
use std::marker::Model;
use thiserror::Error;
use wx_base::NoMemory;

/// Why a graph has no flow.
#[derive(Debug, Drop, Error)]
pub enum FlowFault {
    /// Blocks of which each has an edge to the next and the last to the first, which has the least place.
    #[error("the blocks are on a cycle")]
    Loop(Places),
    #[error("out of memory")]
    NoMemory,
}

impl From<NoMemory> for FlowFault {
    ghost use Rattle.flow_rules.specs.declared.flow.FlowFault.TheVariants as fault;

    ghost from_gives = { λ _ e. e ≡ fault.NoMemory };

    fn from(_: NoMemory) -> Self {
        FlowFault::NoMemory
    }
}

/// A graph of blocks without a cycle, and which of them are reached around which.
///
/// Contracts see its edges by places in the file, as they were given, its kept order, and its edges by
/// positions in that order.
#[derive(Debug, Drop)]
pub struct Flow {
    graph: Edges,
    order: Places,
    positions: Places,
    edges: Edges,
    // By the position of a block, which blocks are reached around it; last, which are reached at all.
    rows: Rows,
}

impl Model for Flow {
    ghost use Rattle.flow_rules.specs.Flow.{Flow as FlowView};

    ghost Value = { FlowView };

    ghost use Rattle.flow_rules.specs.Stored.{flow_of, IsSound};

    ghost view = { flow_of };

    ghost invariant = { IsSound };
}

impl Flow {
    /// The flow of a graph of so many blocks, one at least, with the edges by places. The edges come in any
    /// order and as often as one likes.
    ///
    /// # Errors
    /// `Loop` exactly where the graph has a cycle; which one is given is free.
    pub fn new(alloc: Global, blocks: u32, graph: Edges) -> Result<Flow, FlowFault>
        requires entry { 0 < blocks }
        requires within { All (λ edge. (edge.from < blocks) × (edge.to < blocks)) graph }
        ensures graph { IfOk result (λ flow. flow.graph ≡ graph) }
        ensures flow { IfOk result (IsFlow blocks) }
        ensures acyclic { IfOk result (λ flow. (cycle : List ℕ) → ¬ IsClosed graph cycle) }
        ensures fault { IfErr result (IsCause graph) }
    {
        match kept_order(alloc, blocks, graph.items())? {
            Ordered::Order(order) => Ok(Flow::in_order(alloc, blocks, graph, order)?),
            Ordered::Cycle(cycle) => Err(FlowFault::Loop(cycle)),
        }
    }

    fn in_order(alloc: Global, blocks: u32, graph: Edges, order: Places) -> Result<Flow, NoMemory>
        requires entry { 0 < blocks }
        requires within { All (λ edge. (edge.from < blocks) × (edge.to < blocks)) graph }
        requires kept { IsKeptOrder blocks graph order }
        requires size { length order ≡ blocks }
        ensures graph { IfOk result (λ flow. flow.graph ≡ graph) }
        ensures flow { IfOk result (IsFlow blocks) }
    {
        let positions = positions_of(alloc, order.items())?;
        let edges = edges_of(alloc, graph.items(), positions.items())?;
        let rows = rows_of(alloc, edges.items(), positions.items()[0], blocks)?;
        Ok(Flow {
            graph,
            order,
            positions,
            edges,
            rows,
        })
    }

    /// The places of the blocks, in the kept order. It takes no memory.
    pub fn order(&self) -> &[u32]
        ensures order { result.now ≡ self.now.order }
        ensures flow { IsFlow (length self.now.order) self.now }
    {
        self.order.items()
    }

    /// The edges by positions in the kept order, each pair once, sorted; each leads forward. It takes no
    /// memory.
    pub fn edges(&self) -> &[Edge]
        ensures edges { result.now ≡ self.now.edges }
        ensures flow { IsFlow (length self.now.order) self.now }
        ensures forward { IsForward (length self.now.order) self.now.edges }
    {
        self.edges.items()
    }

    /// The position of a block in the kept order.
    pub fn position(&self, block: u32) -> u32
        requires { block < length self.now.order }
        ensures within { result < length self.now.order }
        ensures there { slice_index self.now.order result ≡ block }
    {
        self.positions.items()[block as usize]
    }

    /// The first block, by places, that no path from the entry reaches; `None` exactly where all are reached.
    pub fn unreached(&self) -> Option<u32>
        ensures { MatchOption result (AllReached (length self.now.order) self.now.graph)
            (IsFirstUnreached (length self.now.order) self.now.graph) }
    {
        for block in 0..self.order.len() as u32 {
            if !self.is_reached(block) {
                return Some(block);
            }
        }
        None
    }

    /// Whether some path from the entry reaches a block.
    pub fn is_reached(&self, block: u32) -> bool
        requires { block < length self.now.order }
        ensures { IsTrue result ↔ IsReached self.now.graph block }
    {
        let position = self.position(block);
        row(&self.rows, self.order.len())[position as usize]
    }

    /// Whether a value is defined on every path to a use.
    pub fn is_defined(&self, it: &Use) -> bool
        requires { IsWithin self.now it.now }
        ensures { IsTrue result ↔ IsDefined self.now.graph it.now }
    {
        let around = self.position(it.definition);
        let position = self.position(it.block);
        if it.is_own() {
            return true;
        }
        !row(&self.rows, around as usize)[position as usize]
    }

    /// The first of some uses whose value isn't defined on every path to it; `None` exactly where each is.
    pub fn first_undefined(&self, uses: &[Use]) -> Option<usize>
        requires { All (IsWithin self.now) uses.now }
        ensures { MatchOption result (All (IsDefined self.now.graph) uses.now)
            (IsFirstUndefined self.now.graph uses.now) }
    {
        for (at, it) in uses.iter().enumerate() {
            if !self.is_defined(it) {
                return Some(at);
            }
        }
        None
    }

    /// A path from the entry to a use on which the value isn't defined before it, as places. Which one is
    /// given is free.
    pub fn path_around(&self, alloc: Global, it: &Use) -> Result<Places, NoMemory>
        requires within { IsWithin self.now it.now }
        requires undefined { ¬ IsDefined self.now.graph it.now }
        ensures { IfOk result (LeavesOut self.now.graph it.now) }
    {
        let around = self.position(it.definition);
        let path = path_to(
            alloc,
            self.edges.items(),
            self.position(0),
            around,
            row(&self.rows, around as usize),
            self.position(it.block),
        )?;
        let places = places_of(alloc, self.order.items(), path.items())?;
        Ok(places)
    }
}
