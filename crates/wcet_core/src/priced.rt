ghost use Rattle.std.specs.Prelude.{◌≡◌, ◌<◌, length, All, IfOk};
ghost use Rattle.sound_costs.specs.Costs.{AreCostsOf, costs_by_label};
ghost use Rattle.wcet_core.specs.FuncMachine.{IsOwn};
ghost use Rattle.wcet_core.specs.Priced.{cell, HasCells, ArePut};

use flow_graph::Edge;
use ir_runner::PathCosts;
use ll_links::BlockId;
use ll_rules::MAX_BLOCKS;
use ll_verifier::Sound;
use sound_costs::Costs;
use std::alloc::Global;
use std::marker::Model;
use wx_base::NoMemory;

/// A function with what its blocks and edges cost, as a runner takes the costs.
#[derive(Drop)]
pub(crate) struct Priced<'a> {
    sound: &'a Sound,
    costs: &'a Costs,
    // The costs of edges, with a row of so many cells as there may be blocks for each block.
    cells: Vec<u32>,
}

impl<'a> Model for Priced<'a> {
    ghost use Rattle.wcet_core.specs.FuncMachine.{CostedFunc};
    ghost use Rattle.wcet_core.specs.Priced.{IsPriced};

    ghost Value = { CostedFunc };

    ghost view = { λ priced. record { func = priced.sound.now.func; costs = priced.costs.now } };

    ghost invariant = { λ priced. IsPriced
        (record { func = priced.sound.now.func; costs = priced.costs.now }) priced.cells.items };
}

impl<'a> Priced<'a> {
    pub(crate) fn new(
        alloc: Global,
        sound: &'a Sound,
        costs: &'a Costs,
    ) -> Result<Priced<'a>, NoMemory>
        requires { AreCostsOf sound.now.func costs.now }
        ensures is { IfOk result (λ priced.
            priced ≡ record { func = sound.now.func; costs = costs.now }) }
        ensures own { IfOk result IsOwn }
    {
        let blocks = sound.func().blocks.len();
        let mut cells = vec![in alloc; 0; MAX_BLOCKS as usize * blocks]?;
        put_edges(costs, &mut cells);
        Ok(Priced {
            sound,
            costs,
            cells,
        })
    }
}

impl<'a> PathCosts for Priced<'a> {
    ghost func = { λ priced. priced.func };

    ghost costs = { λ priced. costs_by_label priced.func priced.costs };

    fn block(&self, block: BlockId) -> u32 {
        self.costs.of(block)
    }

    fn edge(&self, from: BlockId, to: BlockId) -> u32 {
        self.cells[cell(from.0, to.0)]
    }
}

// Puts the cost of each edge into its cell.
fn put_edges(costs: &Costs, cells: &mut [u32])
    requires { HasCells costs.now cells.old }
    ensures put { ArePut costs.now cells.new }
{
    let edges = costs.edges();
    for (at, edge) in edges.iter().enumerate() {
        let Edge { from, to } = *edge;
        cells[cell(from, to)] = costs.edge(BlockId(from), BlockId(to));
    }
}

// Where the cost of an edge stands.
#[inline]
fn cell(from: u32, to: u32) -> usize
    ensures { result ≡ cell from to }
{
    from as usize * MAX_BLOCKS as usize + to as usize
}
