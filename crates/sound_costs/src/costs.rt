ghost use Rattle.std.specs.Prelude.{◌≡◌, ◌≢◌, ◌⊎◌, ◌<◌, ◌^◌, length, slice_index, IfOk, IfErr, MatchResult};
ghost use Rattle.flow_graph.specs.Paths.{HasEdge};
ghost use Rattle.ll_tree.specs.declared.func.Func.{Func};
ghost use Rattle.ll_flow.specs.Paths.{label_of};
ghost use Rattle.ll_verifier.specs.Rules.{Rules};
ghost use Rattle.cost_table.specs.Table.{CostLists};
ghost use Rattle.cost_table.specs.declared.costs.CostFault.{CostFault as Fault};
ghost use Rattle.cost_table.specs.declared.costs.CostFault.TheVariants as faults;
ghost use Rattle.sound_costs.specs.Costs.{edge_cost, AreCostsOf, costs_by_label, IsTableOf, IsCauseOf};

use crate::edges::edges_of;
use cost_table::{CostFault, edge_between};
use flow_graph::{Edge, Edges};
use ll_items::list_labels;
use ll_links::BlockId;
use ll_verifier::Sound;
use std::alloc::Global;
use std::marker::Model;

/// What the blocks and edges of a function cost.
///
/// Contracts see the edges by the places of their blocks in the file, and the two lists of costs.
#[derive(Debug, Drop)]
pub struct Costs {
    edges: Edges,
    lists: cost_table::Costs,
}

impl Model for Costs {
    ghost use Rattle.sound_costs.specs.Costs.{FuncCosts};

    ghost Value = { FuncCosts };

    ghost use Rattle.sound_costs.specs.Costs.{costs_of, IsKept};

    ghost view = { costs_of };

    ghost invariant = { IsKept };
}

impl Costs {
    /// The cost of a block of the function. It takes constant time.
    pub fn of(&self, block: BlockId) -> u32
        requires { block.0 < length self.now.lists.blocks }
        ensures cost { result ≡ slice_index self.now.lists.blocks block.0 }
        ensures by_label { (func : Func) → Rules func → AreCostsOf func self.now
            → result ≡ (costs_by_label func self.now).block (label_of func block.0) }
    {
        self.lists.of(block.0 as usize)
    }

    /// The cost of an edge of the function. The edge is found by halving, so the time grows with the
    /// logarithm of the number of edges.
    pub fn edge(&self, from: BlockId, to: BlockId) -> u32
        requires { HasEdge self.now.edges from.0 to.0 }
        ensures cost { result ≡ edge_cost self.now from.0 to.0 }
        ensures by_label { (func : Func) → Rules func → AreCostsOf func self.now
            → result ≡ (costs_by_label func self.now).edge (label_of func from.0)
            (label_of func to.0) }
    {
        let Some(edge) = edge_between(self.edges.items(), from.0 as usize, to.0 as usize) else {
            unreachable!()
        };
        self.lists.edge(edge)
    }

    /// The edges of the function by the places of their blocks in the file, sorted. It takes no memory.
    pub fn edges(&self) -> &[Edge]
        ensures { result.now ≡ self.now.edges }
    {
        self.edges.items()
    }
}

/// Reads a table of costs of version 1 or 2 for a function that keeps the rules of its language. An
/// edge without a line costs 0.
///
/// # Errors
/// One variant for each cause, in the order of [`CostFault`]; `NoMemory` where there is no memory.
pub fn read_costs(alloc: Global, text: &[u8], sound: &Sound) -> Result<Costs, CostFault>
    requires few { length text.now < 2 ^ 31 }

    // What is answered is so.
    ensures costs { IfOk result (AreCostsOf sound.now.func) }
    ensures table { IfOk result (λ costs. IsTableOf text.now sound.now.func costs.lists) }
    ensures fault { IfErr result (IsCauseOf text.now sound.now.func) }

    // What is so is answered.
    ensures only { (lists : CostLists) → IsTableOf text.now sound.now.func lists
        → MatchResult result (λ costs. costs.lists ≡ lists) (λ found. found ≡ faults.NoMemory) }
    ensures only_fault { (cause : Fault) → cause ≢ faults.NoMemory
        → IsCauseOf text.now sound.now.func cause
        → MatchResult result (λ costs. ⊥) (λ found. (found ≡ cause) ⊎ (found ≡ faults.NoMemory)) }
{
    let labels = list_labels(alloc, sound.func())?;
    let edges = edges_of(alloc, sound)?;
    let lists = cost_table::read_costs(alloc, text, labels.items(), edges.items())?;
    Ok(Costs { edges, lists })
}
