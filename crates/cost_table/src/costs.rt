ghost use Rattle.std.specs.Prelude.{◌≡◌, ◌≢◌, ◌⊎◌, ◌<◌, ◌^◌, ◌≤◌, [], ℕ, List, length, slice_index, All, AllPairs, IfOk, IfErr, MatchOption, MatchResult};
ghost use Rattle.flow_graph.specs.Sorted.{AreSorted};
ghost use Rattle.cost_table.specs.declared.entry.Entry.{Entry as Given};
ghost use Rattle.cost_table.specs.Entries.{Goes, Keeps};
ghost use Rattle.cost_table.specs.Table.{CostLists, Table, IsHeading, IsCause, IsLineFault, fault_at, spelled};
ghost use Rattle.cost_table.specs.declared.costs.CostFault.{CostFault as Fault};
ghost use Rattle.cost_table.specs.declared.costs.CostFault.TheVariants as faults;

use crate::entry::Flaw;
use crate::ledger::{Ledger, costs_in, first_missing};
use bstr::{ByteSlice, Lines};
use flow_graph::Edge;
use name_table::{NameTable, table_of};
use std::alloc::Global;
use std::marker::Model;
use thiserror::Error;
use wx_base::{Name, NoMemory, Sequence};

/// Why a text is no table of costs. Lines are counted from 1; the first wrong line decides.
#[derive(Debug, Drop, Error)]
pub enum CostFault {
    /// The line has none of the forms.
    #[error("line {0} has none of the forms")]
    BadLine(u32),
    /// A name of the line is no label.
    #[error("line {0} names a block that isn't there")]
    UnknownBlock(u32),
    /// Both names are labels, and no edge goes from the first to the second.
    #[error("line {0} names an edge that isn't there")]
    UnknownEdge(u32),
    /// The block or the edge has a line already.
    #[error("line {0} gives a second cost")]
    CostTwice(u32),
    /// The first block without a line, where all lines are right.
    #[error("a block has no cost")]
    Missing(Name),
    #[error("out of memory")]
    NoMemory,
}

impl From<NoMemory> for CostFault {
    ghost from_gives = { λ _ e. e ≡ faults.NoMemory };

    fn from(_: NoMemory) -> Self {
        CostFault::NoMemory
    }
}

/// The costs of a function's blocks and edges. Contracts see two lists.
#[derive(Debug, Drop)]
pub struct Costs {
    blocks: Sequence<u32>,
    edges: Sequence<u32>,
}

impl Model for Costs {
    ghost use Rattle.cost_table.specs.Table.{CostLists};

    ghost Value = { CostLists };

    ghost view = { λ costs. record { blocks = costs.blocks; edges = costs.edges } };
}

impl Costs {
    /// How many blocks have a cost: all of the function.
    pub fn block_count(&self) -> usize
        ensures { result ≡ length self.now.blocks }
    {
        self.blocks.len()
    }

    /// How many edges have a cost: all of the function.
    pub fn edge_count(&self) -> usize
        ensures { result ≡ length self.now.edges }
    {
        self.edges.len()
    }

    /// The cost of the block at a place.
    pub fn of(&self, block: usize) -> u32
        requires { block < length self.now.blocks }
        ensures { result ≡ slice_index self.now.blocks block }
    {
        self.blocks.items()[block]
    }

    /// The cost of the edge with a number.
    pub fn edge(&self, edge: usize) -> u32
        requires { edge < length self.now.edges }
        ensures { result ≡ slice_index self.now.edges edge }
    {
        self.edges.items()[edge]
    }
}

// The version that a heading names.
fn version_of(line: &[u8]) -> Option<u32>
    ensures { MatchOption result ((version : ℕ) → ¬ IsHeading version line.now)
        (λ version. IsHeading version line.now) }
{
    if line == b"wcet costs 1".as_slice() {
        Some(1)
    } else if line == b"wcet costs 2".as_slice() {
        Some(2)
    } else {
        None
    }
}

fn fault_at(flaw: Flaw, line: u32) -> CostFault
    ensures { result ≡ fault_at flaw line }
{
    match flaw {
        Flaw::Form => CostFault::BadLine(line),
        Flaw::Block => CostFault::UnknownBlock(line),
        Flaw::Edge => CostFault::UnknownEdge(line),
        Flaw::Twice => CostFault::CostTwice(line),
    }
}

// Adds what the lines behind the heading give.
fn take_lines(
    alloc: Global,
    version: u32,
    labels: &NameTable,
    edges: &[Edge],
    mut lines: Lines<'_>,
    ledger: &mut Ledger,
) -> Result<(), CostFault>
    requires few { length lines < 2 ^ 31 }
    requires different { AllPairs (λ label other. label ≢ other) labels.now }
    requires within { All (λ edge. (edge.from < length labels.now) × (edge.to < length labels.now))
        edges.now }
    requires sorted { AreSorted edges.now }
    requires blocks { length ledger.old.blocks.items ≡ length labels.now }
    requires edges { length ledger.old.edges.items ≡ length edges.now }
    requires none { Keeps [] ledger.old.blocks.items ledger.old.edges.items }
    ensures blocks { IfOk result (λ _. length ledger.new.blocks.items ≡ length labels.now) }
    ensures edges { IfOk result (λ _. length ledger.new.edges.items ≡ length edges.now) }
    ensures entries { IfOk result (λ _. (entries : List Given)
        × Goes version labels.now edges.now [] lines.entry entries
        × Keeps entries ledger.new.blocks.items ledger.new.edges.items) }
    ensures fault { IfErr result (IsLineFault version labels.now edges.now lines.entry) }
{
    let mut number = 2;
    while let Some(line) = lines.next() {
        if let Some(flaw) = ledger.take_line(alloc, version, labels, edges, line)? {
            return Err(fault_at(flaw, number));
        }
        number += 1;
    }
    Ok(())
}

/// Reads a table of costs of version 1 or 2, over the labels of a function's blocks by their places, and its
/// edges by places, sorted and each once. An edge without a line costs 0.
///
/// A text is a table of one list of costs at most, and none where it has a fault, of which it has one.
///
/// # Errors
/// One variant for each cause, in the order of [`CostFault`]; `NoMemory` where there is no memory.
pub fn read_costs(
    alloc: Global,
    text: &[u8],
    labels: &[&[u8]],
    edges: &[Edge],
) -> Result<Costs, CostFault>
    requires few { length text.now < 2 ^ 31 }
    requires different { AllPairs (λ label other. label ≢ other) (spelled labels.now) }
    requires within { All (λ edge. (edge.from < length (spelled labels.now))
        × (edge.to < length (spelled labels.now))) edges.now }
    requires sorted { AreSorted edges.now }

    // What is answered is so.
    ensures table { IfOk result (Table text.now (spelled labels.now) edges.now) }
    ensures fault { IfErr result (IsCause text.now (spelled labels.now) edges.now) }

    // What is so is answered.
    ensures only { (costs : CostLists) → Table text.now (spelled labels.now) edges.now costs
        → MatchResult result (λ read. read ≡ costs) (λ found. found ≡ faults.NoMemory) }
    ensures only_fault { (cause : Fault) → cause ≢ faults.NoMemory
        → IsCause text.now (spelled labels.now) edges.now cause
        → MatchResult result (λ read. ⊥) (λ found. (found ≡ cause) ⊎ (found ≡ faults.NoMemory)) }

    // There is one answer at most.
    ensures one { (costs others : CostLists) → Table text.now (spelled labels.now) edges.now costs
        → Table text.now (spelled labels.now) edges.now others → costs ≡ others }
    ensures one_fault { (cause other : Fault) → cause ≢ faults.NoMemory → other ≢ faults.NoMemory
        → IsCause text.now (spelled labels.now) edges.now cause
        → IsCause text.now (spelled labels.now) edges.now other
        → cause ≡ other }
    ensures not_both { (costs : CostLists) (cause : Fault)
        → Table text.now (spelled labels.now) edges.now costs
        → IsCause text.now (spelled labels.now) edges.now cause → cause ≡ faults.NoMemory }
{
    read_table(alloc, text, labels, edges)
}

fn read_table(
    alloc: Global,
    text: &[u8],
    labels: &[&[u8]],
    edges: &[Edge],
) -> Result<Costs, CostFault>
    requires few { length text.now < 2 ^ 31 }
    requires different { AllPairs (λ label other. label ≢ other) (spelled labels.now) }
    requires within { All (λ edge. (edge.from < length (spelled labels.now))
        × (edge.to < length (spelled labels.now))) edges.now }
    requires sorted { AreSorted edges.now }
    ensures table { IfOk result (Table text.now (spelled labels.now) edges.now) }
    ensures fault { IfErr result (IsCause text.now (spelled labels.now) edges.now) }
{
    let mut lines = text.lines();
    let Some(first) = lines.next() else {
        return Err(CostFault::BadLine(1));
    };
    let Some(version) = version_of(first) else {
        return Err(CostFault::BadLine(1));
    };
    let table = table_of(alloc, labels)?;
    let mut ledger = Ledger::new(alloc, labels.len(), edges.len())?;
    take_lines(alloc, version, &table, edges, lines, &mut ledger)?;
    if let Some(block) = first_missing(&ledger.blocks) {
        return Err(CostFault::Missing(Name::new(alloc, labels[block])?));
    }
    Ok(Costs {
        blocks: costs_in(alloc, &ledger.blocks)?,
        edges: costs_in(alloc, &ledger.edges)?,
    })
}
