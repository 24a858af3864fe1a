ghost use Rattle.std.specs.Prelude.{◌≢◌, AllPairs, IfOk};
ghost use Rattle.flow_graph.specs.Sorted.{AreSorted};
ghost use Rattle.cost_table.specs.Table.{spelled};

use crate::{CostFault, Costs, read_costs};
use flow_graph::{Edge, Edges, sorted};
use std::alloc::Global;
use std::test::Fail;
use wx_base::NoMemory;

// The labels of three blocks.
fn labels() -> [&'static [u8]; 3]
    ensures { AllPairs (λ label other. label ≢ other) (spelled result) }
{
    [b"a", b"b", b"c d"]
}

// Edges from the first block to the others.
fn edges(alloc: Global) -> Result<Edges, NoMemory>
    ensures { IfOk result AreSorted }
{
    let mut edges = Vec::new(alloc);
    for to in [1, 2] {
        edges.push(Edge { from: 0, to })?;
    }
    sorted(edges)
}

// The table over `a`, `b` and `c d`, with edges from the first to the others.
fn read(alloc: Global, text: &[u8]) -> Result<Costs, CostFault> {
    let labels = labels();
    let edges = edges(alloc)?;
    if text.len() >= 1 << 31
        || edges
            .items()
            .iter()
            .any(|edge| edge.from > 2 || edge.to > 2)
    {
        return Err(CostFault::NoMemory);
    }
    read_costs(alloc, text, &labels, edges.items())
}

// What a fault says, and the line or the length of the label.
fn fault_of(fault: CostFault) -> (char, u64) {
    match fault {
        CostFault::BadLine(line) => ('l', line as u64),
        CostFault::UnknownBlock(line) => ('b', line as u64),
        CostFault::UnknownEdge(line) => ('e', line as u64),
        CostFault::CostTwice(line) => ('t', line as u64),
        CostFault::Missing(block) => ('m', block.bytes().len() as u64),
        CostFault::NoMemory => ('n', 0),
    }
}

const FAULTS: [(&[u8], char, u64); 12] = [
    (b"", 'l', 1),
    (b"wcet costs 3\n", 'l', 1),
    (b"wcet costs 1\n%a 01\n%x 1\n", 'l', 2),
    (b"wcet costs 1\n;\n%a 4294967296", 'l', 3),
    (b"wcet costs 1\n%a %b 1\n", 'l', 2),
    (b"wcet costs 1\n%a 1\r", 'l', 2),
    (b"wcet costs 1\n%\"c  d\" 1\n%a\n", 'b', 2),
    (b"wcet costs 2\r\n%a %x 1\r\n", 'b', 2),
    (b"wcet costs 2\n%b %a 1\n", 'e', 2),
    (b"wcet costs 2\n\n%a %b 1\n%\"a\" %b 1\n", 't', 4),
    (b"wcet costs 1\n%a 1\n%a 1\n", 't', 3),
    (b"wcet costs 1\n%a 1\n%b 1\n", 'm', 3),
];

#[test]
fn the_first_fault_is_named(rt: HostRuntime) -> Result<(), Fail> {
    for (text, kind, line) in FAULTS {
        let found = match read(rt.alloc(), text) {
            Ok(_costs) => ('o', 0),
            Err(fault) => fault_of(fault),
        };
        assert!(rt; found == (kind, line), "{kind} {line}");
    }
    Ok(())
}

const TABLES: [(&[u8], u32); 4] = [
    (b"wcet costs 1\n%a 1\n%b 2\n%\"c d\" 3\n", 0),
    (b"wcet costs 2\r\n\r\n%\"b\" 2\r\n%a 1\r\n%\"c d\" 3", 0),
    (
        b"wcet costs 2\n%a %\"c d\" 4294967295\n%\"c d\" 3\n;%\n%b 2\n%a 1",
        4294967295,
    ),
    (
        b"wcet costs 2\n%a %\"c\\20d\" 0\n%\"c\\20d\" 3\n%b 2\n%a 1\n",
        0,
    ),
];

#[test]
fn costs_are_read(rt: HostRuntime) -> Result<(), Fail> {
    for (text, edge) in TABLES {
        let costs = read(rt.alloc(), text).ok().ok_or("no table")?;
        let mut found = [0; 5];
        if costs.block_count() == 3 && costs.edge_count() == 2 {
            found = [
                costs.of(0),
                costs.of(1),
                costs.of(2),
                costs.edge(0),
                costs.edge(1),
            ];
        }
        assert!(rt; found == [1, 2, 3, 0, edge], "{edge}");
    }
    Ok(())
}
