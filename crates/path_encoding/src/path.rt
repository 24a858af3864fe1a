ghost use Rattle.std.specs.Prelude.{◌≡◌, ◌<◌, ◌≤◌, ℕ, length, zip, All, IfOk};
ghost use Rattle.wrap_rows.specs.Layout.{Holds};
ghost use Rattle.path_encoding.specs.Spots.{AreSpotsOf, Exist};
ghost use Rattle.path_encoding.specs.PathLayout.{path_layout};
ghost use Rattle.path_encoding.specs.Paths.{positions, IsTaken, AreMarks};
ghost use Rattle.path_encoding.specs.Reading.{is_one_from, next_from};

use crate::PathSpots;
use ll_links::Position;
use ll_verifier::{PositionEdge, Sound};
use std::alloc::Global;
use wx_base::NoMemory;

/// The path that a point takes, by positions in the kept order, from the entry to an end.
///
/// The spots are the function's, blocks and edges are 0 or 1, and the layout of paths holds. The
/// time is that of one look at all edges for each block of the path.
pub fn path_at(
    alloc: Global,
    sound: &Sound,
    spots: &PathSpots,
    point: &[i128],
) -> Result<Vec<Position>, NoMemory>
    requires spots { AreSpotsOf sound.now spots.now }
    requires known { Exist (length point.now) spots.now }
    requires marks { AreMarks spots.now point.now }
    requires holds { Holds (path_layout sound.now spots.now) point.now }
    ensures { IfOk result (λ path. IsTaken sound.now spots.now point.now (positions path.items)) }
{
    let edges = sound.edges();
    let vars = spots.edges.as_slice();
    let blocks = sound.order().len();
    let mut path = Vec::new(alloc);
    let mut at = 0;
    for _ in 0..blocks {
        path.push(Position(at))?;
        let Some(to) = next_taken(edges, vars, point, at) else {
            return Ok(path);
        };
        at = to.0;
    }
    Ok(path)
}

// The position to which the first edge that is 1 leads from this one.
fn next_taken(edges: &[PositionEdge], vars: &[u32], point: &[i128], at: u32) -> Option<Position>
    requires each { length edges.now ≤ length vars.now }
    requires known { All (λ var. var < length point.now) vars.now }
    ensures { result ≡ next_from point.now (zip edges.now vars.now) at }
{
    for (item, edge) in edges.iter().enumerate() {
        if !is_taken(*edge, vars[item], point, at) {
            continue;
        }
        return Some(edge.to);
    }
    None
}

// Whether the edge leads from the position and its variable is 1.
fn is_taken(edge: PositionEdge, var: u32, point: &[i128], at: u32) -> bool
    requires { var < length point.now }
    ensures { result ≡ is_one_from point.now at (edge, var) }
{
    edge.from.0 == at && point[var as usize] == 1
}
