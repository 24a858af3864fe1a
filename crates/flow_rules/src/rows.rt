ghost use Rattle.std.specs.Prelude.{◌≡◌, ◌<◌, ◌+◌, ◌^◌, length, IfOk};
ghost use Rattle.flow_graph.specs.Paths.{IsForward, AreMarks};
ghost use Rattle.flow_rules.specs.Stored.{AreRows, row_at};

use flow_graph::{Edge, mark_reached};
use std::alloc::Global;
use wx_base::{NoMemory, Sequence};

/// Marks of blocks, a row for each block that is left out.
pub type Rows = Sequence<Sequence<bool>>;

/// For each block which blocks are reached around it, and last, for a number of no block, which are reached
/// at all.
pub fn rows_of(alloc: Global, edges: &[Edge], entry: u32, blocks: u32) -> Result<Rows, NoMemory>
    requires forward { IsForward blocks edges.now }
    requires entry { entry < blocks }
    ensures { IfOk result (λ rows. AreRows edges.now entry blocks rows) }
{
    let mut rows = Sequence::with_capacity(alloc, blocks as usize + 1)?;
    for without in 0..blocks as usize + 1 {
        let row = row_around(alloc, edges, entry, without as u32, blocks)?;
        rows.push(row)?;
    }
    Ok(rows)
}

fn row_around(
    alloc: Global,
    edges: &[Edge],
    entry: u32,
    without: u32,
    blocks: u32,
) -> Result<Sequence<bool>, NoMemory>
    requires forward { IsForward blocks edges.now }
    requires entry { entry < blocks }
    ensures size { IfOk result (λ row. length row ≡ blocks) }
    ensures marks { IfOk result (λ row. AreMarks edges.now entry without row) }
{
    let mut row = vec![in alloc; false; blocks as usize]?;
    mark_reached(edges, entry, without, &mut row);
    Ok(Sequence::from_vec(row))
}

/// The marks of the row at a place.
pub fn row(rows: &Rows, at: usize) -> &[bool]
    requires { at < length rows.now }
    ensures { result.now ≡ row_at rows.now at }
{
    rows.items()[at].items()
}
