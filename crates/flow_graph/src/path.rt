ghost use Rattle.std.specs.Prelude.{◌≡◌, ◌≢◌, ◌<◌, ℕ, IsTrue, true, false, length, slice_index_or, IfOk};
ghost use Rattle.flow_graph.specs.Paths.{IsForward, HasEdge, IsPath, AreMarks};

use crate::Edge;
use std::alloc::Global;
use wx_base::{NoMemory, Sequence};

/// A path from the entry to a marked block, by steps back over marked blocks.
pub fn path_to(
    alloc: Global,
    edges: &[Edge],
    entry: u32,
    without: u32,
    reached: &[bool],
    to: u32,
) -> Result<Sequence<u32>, NoMemory>
    requires forward { IsForward (length reached.now) edges.now }
    requires marks { AreMarks edges.now entry without reached.now }
    requires within { to < length reached.now }
    requires marked { IsTrue (slice_index_or reached.now to false) }
    ensures { IfOk result (λ path. IsPath edges.now without entry path to) }
{
    let mut path = Vec::new(alloc);
    let mut at = to;
    while at != entry {
        path.push(at)?;
        at = before(edges, without, reached, at);
    }
    path.push(entry)?;
    path.reverse();
    Ok(Sequence::from_vec(path))
}

// A marked block with an edge to this one, around which paths may go.
fn before(edges: &[Edge], without: u32, reached: &[bool], at: u32) -> u32
    requires forward { IsForward (length reached.now) edges.now }
    requires exists { (from : ℕ) × HasEdge edges.now from at × (from ≢ without)
        × (slice_index_or reached.now from false ≡ true) }
    ensures edge { HasEdge edges.now result at }
    ensures around { result ≢ without }
    ensures marked { slice_index_or reached.now result false ≡ true }
{
    for edge in edges {
        if edge.to == at && edge.from != without && reached[edge.from as usize] {
            return edge.from;
        }
    }
    at
}
