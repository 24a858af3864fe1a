ghost use Rattle.std.specs.Prelude.{IfOk};
ghost use Rattle.flow_graph.specs.Sorted.{AreSorted, AreSame};

use crate::{Edge, Edges};
use wx_base::{NoMemory, Sequence};

/// The same edges, each pair once, sorted by `from` and then by `to`.
pub fn sorted(mut edges: Vec<Edge>) -> Result<Edges, NoMemory>
    ensures sorted { IfOk result AreSorted }
    ensures same { IfOk result (AreSame edges.items) }
{
    edges.sort()?;
    edges.dedup();
    Ok(Sequence::from_vec(edges))
}
