ghost use Rattle.std.specs.Prelude.{◌≡◌, ◌+◌, ◌<◌, ◌≤◌, ◌^◌, List, length, All, IfOk, vec_len};
ghost use Rattle.std.specs.List.{filter, range_with_len};
ghost use Rattle.ll_verifier.specs.declared.order.PositionEdge.{PositionEdge as EdgeBetween};
ghost use Rattle.portion_cuts.specs.Portions.{between, portions_of};
ghost use Rattle.portion_cuts.specs.Reach.{AreSteps, ends_there};

use crate::Portion;
use ll_links::Position;
use ll_verifier::{PositionEdge, Sound};
use std::alloc::Global;
use wx_base::NoMemory;

/// The portions of a function, from the first block to the last: the neighbouring pairs of the
/// positions that no edge passes over. The time is linear in blocks and edges.
pub fn portions(alloc: Global, sound: &Sound) -> Result<Vec<Portion>, NoMemory>
    ensures { IfOk result (λ list. list.items ≡ portions_of sound.now) }
{
    let steps = list_steps(alloc, sound.order().len(), sound.edges())?;
    let cuts = list_cuts(alloc, steps.as_slice())?;
    list_portions(alloc, cuts.as_slice())
}

// For each position and the one behind the last, how far an edge leads from the position before.
fn list_steps(alloc: Global, blocks: usize, edges: &[PositionEdge]) -> Result<Vec<u32>, NoMemory>
    requires few { blocks < 2 ^ 32 }
    requires within { All (λ edge. edge.from.0 < blocks) edges.now }
    ensures size { IfOk result (λ steps. vec_len steps ≡ blocks + 1) }
    ensures steps { IfOk result (λ steps. AreSteps edges.now steps.items) }
{
    let mut steps = vec![in alloc; 0; blocks + 1]?;
    for edge in edges {
        let behind = edge.from.0 as usize + 1;
        steps[behind] = steps[behind].max(edge.to.0);
    }
    Ok(steps)
}

// The positions to which no edge before them leads further.
fn list_cuts(alloc: Global, steps: &[u32]) -> Result<Vec<u32>, NoMemory>
    requires few { length steps.now ≤ 2 ^ 32 }
    ensures { (edges : List EdgeBetween) → AreSteps edges steps.now
        → IfOk result (λ cuts. cuts.items
        ≡ filter (ends_there edges) (range_with_len 0 (length steps.now))) }
{
    let mut cuts = Vec::new(alloc);
    let mut reach: u32 = 0;
    for (at, step) in steps.iter().enumerate() {
        reach = reach.max(*step);
        if reach as usize > at {
            continue;
        }
        cuts.push(at as u32)?;
    }
    Ok(cuts)
}

fn list_portions(alloc: Global, cuts: &[u32]) -> Result<Vec<Portion>, NoMemory>
    ensures { IfOk result (λ list. list.items ≡ between cuts.now) }
{
    let list = cuts
        .iter()
        .zip(cuts.iter().skip(1))
        .map(|(from, to)| Portion {
            from: Position(*from),
            to: Position(*to),
        })
        .collect(alloc)?;
    Ok(list)
}
