ghost use Rattle.std.specs.Prelude.{◌≡◌, ◌≢◌, ◌<◌, [], ℕ, List, None, Some, length, map, slice_index_or, slice_set, All, AllPairs, IfOk, MatchBool, MatchOption};
ghost use Rattle.flow_graph.specs.Sorted.{AreSorted};
ghost use Rattle.cost_table.specs.declared.entry.Entry.{Entry as Given};
ghost use Rattle.cost_table.specs.Entries.{Gives, Repeats, IsFlaw, Keeps, HasPlace, Adds, cost_or_zero};

use crate::entry::{Entry, Flaw, entry_of};
use crate::line::read_line;
use flow_graph::Edge;
use name_table::NameTable;
use std::alloc::Global;
use wx_base::{NoMemory, Sequence};

/// The costs that were read so far.
#[derive(Debug, Drop)]
pub struct Ledger {
    pub blocks: Vec<Option<u32>>,
    pub edges: Vec<Option<u32>>,
}

// Sets a cost where there is none, and answers whether there was none.
fn put(costs: &mut Vec<Option<u32>>, at: usize, cost: u32) -> bool
    requires { at < length costs.old.items }
    ensures { MatchBool result
        ((slice_index_or costs.old.items at None ≡ None)
        × (costs.new.items ≡ slice_set costs.old.items at (Some cost)))
        (((other : ℕ) × (slice_index_or costs.old.items at None ≡ Some other))
        × (costs.new.items ≡ costs.old.items)) }
{
    let Some(_known) = costs[at] else {
        costs[at] = Some(cost);
        return true;
    };
    false
}

impl Ledger {
    /// No cost for so many blocks and edges.
    pub fn new(alloc: Global, blocks: usize, edges: usize) -> Result<Ledger, NoMemory>
        ensures blocks { IfOk result (λ ledger. length ledger.blocks.items ≡ blocks) }
        ensures edges { IfOk result (λ ledger. length ledger.edges.items ≡ edges) }
        ensures none { IfOk result (λ ledger. Keeps [] ledger.blocks.items ledger.edges.items) }
    {
        Ok(Ledger {
            blocks: vec![in alloc; None; blocks]?,
            edges: vec![in alloc; None; edges]?,
        })
    }

    // Adds an entry, where it gives no second cost.
    fn add(&mut self, entry: Entry) -> bool
        requires { HasPlace (length self.old.blocks.items) (length self.old.edges.items) entry }
        ensures blocks { length self.new.blocks.items ≡ length self.old.blocks.items }
        ensures edges { length self.new.edges.items ≡ length self.old.edges.items }
        ensures added { (entries : List Given)
            → Keeps entries self.old.blocks.items self.old.edges.items
            → MatchBool result (Adds entries entry self.new.blocks.items self.new.edges.items)
            (Repeats entries entry) }
    {
        match entry {
            Entry::Nothing => true,
            Entry::Block { block, cost } => put(&mut self.blocks, block, cost),
            Entry::Edge { edge, cost } => put(&mut self.edges, edge, cost),
        }
    }

    /// Adds what a line gives; `Some` exactly where the line has a flaw.
    pub fn take_line(
        &mut self,
        alloc: Global,
        version: u32,
        labels: &NameTable,
        graph: &[Edge],
        line: &[u8],
    ) -> Result<Option<Flaw>, NoMemory>
        requires different { AllPairs (λ label other. label ≢ other) labels.now }
        requires within { All (λ edge. (edge.from < length labels.now)
            × (edge.to < length labels.now)) graph.now }
        requires sorted { AreSorted graph.now }
        requires blocks { length self.old.blocks.items ≡ length labels.now }
        requires edges { length self.old.edges.items ≡ length graph.now }
        ensures blocks { length self.new.blocks.items ≡ length labels.now }
        ensures edges { length self.new.edges.items ≡ length graph.now }
        ensures added { (entries : List Given)
            → Keeps entries self.old.blocks.items self.old.edges.items
            → IfOk result (λ flaw. MatchOption flaw
            ((given : Given) × Gives version labels.now graph.now line.now given
            × Adds entries given self.new.blocks.items self.new.edges.items)
            (IsFlaw version labels.now graph.now entries line.now)) }
    {
        let Some(said) = read_line(alloc, line)? else {
            return Ok(Some(Flaw::Form));
        };
        match entry_of(version, labels, graph, &said) {
            Err(flaw) => Ok(Some(flaw)),
            Ok(entry) => {
                if self.add(entry) {
                    Ok(None)
                } else {
                    Ok(Some(Flaw::Twice))
                }
            }
        }
    }
}

/// The first place without a cost.
pub fn first_missing(costs: &[Option<u32>]) -> Option<usize>
    ensures { MatchOption result
        ((at : ℕ) → at < length costs.now
        → (cost : ℕ) × (slice_index_or costs.now at None ≡ Some cost))
        (λ at. (at < length costs.now) × (slice_index_or costs.now at None ≡ None)
        × ((other : ℕ) → other < at
        → (cost : ℕ) × (slice_index_or costs.now other None ≡ Some cost))) }
{
    for (at, cost) in costs.iter().enumerate() {
        let Some(_known) = cost else {
            return Some(at);
        };
    }
    None
}

/// The costs, 0 where there is none.
pub fn costs_in(alloc: Global, costs: &[Option<u32>]) -> Result<Sequence<u32>, NoMemory>
    ensures { IfOk result (λ list. list ≡ map cost_or_zero costs.now) }
{
    let list = costs.iter().map(|cost| cost.unwrap_or(0)).collect(alloc)?;
    Ok(Sequence::from_vec(list))
}
