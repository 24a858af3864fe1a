ghost use Rattle.std.specs.Prelude.{◌≡◌, ◌+◌, ◌*◌, ◌^◌, ◌<◌, ◌≤◌, length, IfOk, All};
ghost use Rattle.mix_system.specs.System.{IsRange};
ghost use Rattle.bound_trail.specs.Edges.{first_edges, range_edges};

use crate::edge::Edge;
use mix_system::System;
use std::alloc::Global;
use wx_base::NoMemory;

/// The ranges of a system's variables.
pub fn ranges_of(alloc: Global, system: &System) -> Result<Vec<(i128, i128)>, NoMemory>
    ensures ranges { IfOk result (λ ranges. ranges.items ≡ system.now.ranges) }
{
    let mut ranges = Vec::new(alloc);
    for var in 0..system.vars() {
        ranges.push(system.range(var))?;
    }
    Ok(ranges)
}

/// The bounds that the ranges give, and none for so many rows.
pub fn edges_of(alloc: Global, ranges: &[(i128, i128)], rows: u32) -> Result<Vec<Edge>, NoMemory>
    ensures { IfOk result (λ edges. edges.items ≡ first_edges ranges.now rows) }
{
    let mut edges = range_edges_of(alloc, ranges)?;
    for _ in 0..rows {
        let none = Edge {
            bound: None,
            entry: None,
        };
        edges.push(none)?;
        edges.push(none)?;
    }
    Ok(edges)
}

fn range_edges_of(alloc: Global, ranges: &[(i128, i128)]) -> Result<Vec<Edge>, NoMemory>
    ensures { IfOk result (λ edges. edges.items ≡ range_edges ranges.now) }
{
    let mut edges = Vec::new(alloc);
    for (low, high) in ranges {
        edges.push(Edge {
            bound: Some(*high),
            entry: None,
        })?;
        edges.push(Edge {
            bound: Some(*low),
            entry: None,
        })?;
    }
    Ok(edges)
}
