ghost use Rattle.std.specs.Prelude.{◌<◌, length};
ghost use Rattle.flow_graph.specs.Paths.{IsForward, AreMarks};

use crate::Edge;

/// Marks the blocks that a path from the entry reaches on which the block `without` doesn't stand before
/// the last. A number of no block leaves no path out. The time is linear in edges and blocks.
pub fn mark_reached(edges: &[Edge], entry: u32, without: u32, reached: &mut [bool])
    requires forward { IsForward (length reached.old) edges.now }
    requires entry { entry < length reached.old }
    ensures { AreMarks edges.now entry without reached.new }
{
    reached.fill(false);
    reached[entry as usize] = true;
    for edge in edges {
        if edge.from != without && reached[edge.from as usize] {
            reached[edge.to as usize] = true;
        }
    }
}
