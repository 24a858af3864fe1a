ghost use Rattle.std.specs.Prelude.{◌≡◌, ◌≢◌, ◌<◌, ◌^◌, map, length, slice_index, All, AllPairs, IfOk};
ghost use Rattle.flow_graph.specs.Sorted.{AreSorted, AreSame};
ghost use Rattle.flow_rules.specs.Stored.{ArePositions, renumbered};

use block_order::Places;
use flow_graph::{Edge, Edges, sorted};
use std::alloc::Global;
use wx_base::{NoMemory, Sequence};

/// The position of each place in an order of all places.
pub fn positions_of(alloc: Global, order: &[u32]) -> Result<Places, NoMemory>
    requires few { length order.now < 2 ^ 32 }
    requires within { All (λ place. place < length order.now) order.now }
    requires apart { AllPairs (λ place other. place ≢ other) order.now }
    ensures { IfOk result (λ positions. ArePositions order.now positions) }
{
    let mut positions = vec![in alloc; 0; order.len()]?;
    for position in 0..order.len() {
        positions[order[position] as usize] = position as u32;
    }
    Ok(Sequence::from_vec(positions))
}

/// The edges by positions, each pair once, sorted.
pub fn edges_of(alloc: Global, graph: &[Edge], positions: &[u32]) -> Result<Edges, NoMemory>
    requires { All (λ edge. (edge.from < length positions.now)
        × (edge.to < length positions.now)) graph.now }
    ensures sorted { IfOk result AreSorted }
    ensures same { IfOk result (AreSame (map (renumbered positions.now) graph.now)) }
{
    let edges = by_positions(alloc, graph, positions)?;
    sorted(edges)
}

fn by_positions(alloc: Global, graph: &[Edge], positions: &[u32]) -> Result<Vec<Edge>, NoMemory>
    requires { All (λ edge. (edge.from < length positions.now)
        × (edge.to < length positions.now)) graph.now }
    ensures { IfOk result (λ edges. edges.items ≡ map (renumbered positions.now) graph.now) }
{
    let edges = graph
        .iter()
        .map(|edge| Edge {
            from: positions[edge.from as usize],
            to: positions[edge.to as usize],
        })
        .collect(alloc)?;
    Ok(edges)
}

/// The places that positions have in an order.
pub fn places_of(alloc: Global, order: &[u32], positions: &[u32]) -> Result<Places, NoMemory>
    requires { All (λ position. position < length order.now) positions.now }
    ensures { IfOk result (λ places. places ≡ map (slice_index order.now) positions.now) }
{
    let places = positions
        .iter()
        .map(|position| order[*position as usize])
        .collect(alloc)?;
    Ok(Sequence::from_vec(places))
}
