ghost use Rattle.std.specs.Prelude.{◌≡◌, ◌<◌, ◌==◌, ◌&&◌, ◌||◌, nat_lt, length, All, Contains, MatchOption};
ghost use Rattle.flow_graph.specs.Sorted.{AreSorted};
ghost use Rattle.cost_table.specs.Entries.{label_at, edge_at};

use flow_graph::Edge;
use name_table::NameTable;
use wx_base::Name;

/// The place of the block with a label.
pub fn block_named(labels: &NameTable, name: &Name) -> Option<usize>
    ensures { MatchOption result (¬ Contains labels.now name.now)
        (λ block. (block < length labels.now) × (label_at labels.now block ≡ name.now)) }
{
    labels.find(name.bytes())
}

/// The place among sorted edges of the one between two blocks, found by halving.
pub fn edge_between(edges: &[Edge], from: usize, to: usize) -> Option<usize>
    requires { AreSorted edges.now }
    ensures { MatchOption result (All (λ edge. (edge.from ≡ from) × (edge.to ≡ to) → ⊥) edges.now)
        (λ edge. (edge < length edges.now) × ((edge_at edges.now edge).from ≡ from)
        × ((edge_at edges.now edge).to ≡ to)) }
{
    let mut low = 0;
    let mut high = edges.len();
    while low < high {
        let middle = low + (high - low) / 2;
        let edge = edges[middle];
        if comes_before(edge, from, to) {
            low = middle + 1;
            continue;
        }
        if goes_between(edge, from, to) {
            return Some(middle);
        }
        high = middle;
    }
    None
}

fn comes_before(edge: Edge, from: usize, to: usize) -> bool
    ensures { result ≡ (nat_lt edge.from from || (edge.from == from && nat_lt edge.to to)) }
{
    let (source, target) = (edge.from as usize, edge.to as usize);
    source < from || (source == from && target < to)
}

fn goes_between(edge: Edge, from: usize, to: usize) -> bool
    ensures { result ≡ (edge.from == from && edge.to == to) }
{
    edge.from as usize == from && edge.to as usize == to
}
