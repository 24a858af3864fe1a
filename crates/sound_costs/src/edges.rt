ghost use Rattle.std.specs.Prelude.{◌≡◌, ◌<◌, ℕ, map, length, All, IfOk};
ghost use Rattle.sound_costs.specs.Edges as spec;

use flow_graph::{Edge, Edges, sorted};
use ll_links::{BlockId, Position};
use ll_verifier::{PositionEdge, Sound};
use std::alloc::Global;
use wx_base::NoMemory;

/// The edges of a function by the places of its blocks, sorted and each once.
pub fn edges_of(alloc: Global, sound: &Sound) -> Result<Edges, NoMemory>
    ensures { IfOk result (λ edges. edges ≡ spec.edges_of sound.now.func) }
{
    let placed = placed_edges(alloc, sound.order(), sound.edges())?;
    sorted(placed)
}

// Edges by places, in the order in which they are given by positions.
fn placed_edges(
    alloc: Global,
    order: &[BlockId],
    edges: &[PositionEdge],
) -> Result<Vec<Edge>, NoMemory>
    requires { All (spec.HasPlaces (length order.now)) edges.now }
    ensures { IfOk result (λ list. list.items ≡ map (spec.placed order.now) edges.now) }
{
    let mut list = Vec::new(alloc);
    for edge in edges {
        list.push(Edge {
            from: place_at(order, edge.from),
            to: place_at(order, edge.to),
        })?;
    }
    Ok(list)
}

fn place_at(order: &[BlockId], position: Position) -> u32
    requires { position.0 < length order.now }
    ensures { result ≡ spec.place_at order.now position }
{
    order[position.0 as usize].0
}
