ghost use Rattle.std.specs.Prelude.{◌≢◌, ◌<◌, length, All, AllPairs, MatchResult};
ghost use Rattle.flow_graph.specs.Sorted.{AreSorted};
ghost use Rattle.cost_table.specs.Entries.{Names, Lacks};

use crate::line::Said;
use crate::places::{block_named, edge_between};
use flow_graph::Edge;
use name_table::NameTable;

/// What a line gives, with numbers in place of names.
#[derive(Clone, Copy, Debug)]
pub enum Entry {
    Nothing,
    Block { block: usize, cost: u32 },
    Edge { edge: usize, cost: u32 },
}

/// What is wrong with a line.
#[derive(Clone, Copy, Debug)]
pub enum Flaw {
    Form,
    Block,
    Edge,
    Twice,
}

/// What is said, with the numbers of the block or the edge.
pub fn entry_of(
    version: u32,
    labels: &NameTable,
    edges: &[Edge],
    said: &Said,
) -> Result<Entry, Flaw>
    requires different { AllPairs (λ label other. label ≢ other) labels.now }
    requires within { All (λ edge. (edge.from < length labels.now) × (edge.to < length labels.now))
        edges.now }
    requires sorted { AreSorted edges.now }
    ensures { MatchResult result (Names version labels.now edges.now said.now)
        (Lacks version labels.now edges.now said.now) }
{
    match said {
        Said::Nothing => Ok(Entry::Nothing),
        Said::Block { label, cost } => match block_named(labels, label) {
            None => Err(Flaw::Block),
            Some(block) => Ok(Entry::Block { block, cost: *cost }),
        },
        Said::Edge { from, to, cost } => {
            if version != 2 {
                return Err(Flaw::Form);
            }
            let Some(from) = block_named(labels, from) else {
                return Err(Flaw::Block);
            };
            let Some(to) = block_named(labels, to) else {
                return Err(Flaw::Block);
            };
            match edge_between(edges, from, to) {
                None => Err(Flaw::Edge),
                Some(edge) => Ok(Entry::Edge { edge, cost: *cost }),
            }
        }
    }
}
