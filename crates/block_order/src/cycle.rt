ghost use Rattle.std.specs.Prelude.{◌≡◌, ◌<◌, ℕ, false, length, reverse, nat_lt, All, Contains, slice_index_or, IfOk};
ghost use Rattle.std.specs.List.{IsFirstBest};
ghost use Rattle.flow_graph.specs.Paths.{HasEdge};
ghost use Rattle.block_order.specs.Order.{IsCycle};
ghost use Rattle.block_order.specs.Marks.{IsStuck};
ghost use Rattle.block_order.specs.Walk.{IsChain, IsCut};

use flow_graph::Edge;
use std::alloc::Global;
use wx_base::NoMemory;

/// A cycle, from a block that isn't taken, where each such block has such a predecessor.
pub fn cycle_from(
    alloc: Global,
    edges: &[Edge],
    taken: &[bool],
    start: u32,
) -> Result<Vec<u32>, NoMemory>
    requires within { All (λ edge. (edge.from < length taken.now)
        × (edge.to < length taken.now)) edges.now }
    requires stuck { IsStuck edges.now taken.now }
    requires start { start < length taken.now }
    requires left { slice_index_or taken.now start false ≡ false }
    ensures { IfOk result (λ cycle. IsCycle edges.now cycle.items) }
{
    let (walk, at) = walk_back(alloc, edges, taken, start)?;
    let mut cycle = cut(alloc, walk, at)?;
    let least = least_place(&cycle);
    cycle.rotate_left(least);
    Ok(cycle)
}

// Steps back over blocks that aren't taken until one comes again: the blocks in the order of the steps, and
// the one that came again.
fn walk_back(
    alloc: Global,
    edges: &[Edge],
    taken: &[bool],
    start: u32,
) -> Result<(Vec<u32>, u32), NoMemory>
    requires within { All (λ edge. (edge.from < length taken.now)
        × (edge.to < length taken.now)) edges.now }
    requires stuck { IsStuck edges.now taken.now }
    requires start { start < length taken.now }
    requires left { slice_index_or taken.now start false ≡ false }
    ensures again { IfOk result (λ walk. Contains walk.0.items walk.1) }
    ensures steps { IfOk result (λ walk. IsChain edges.now walk.1 (reverse walk.0.items)) }
{
    let mut seen = vec![in alloc; false; taken.len()]?;
    let mut walk = Vec::new(alloc);
    let mut at = start;
    while !seen[at as usize] {
        seen[at as usize] = true;
        walk.push(at)?;
        at = left_before(edges, taken, at);
    }
    Ok((walk, at))
}

// A predecessor that isn't taken.
fn left_before(edges: &[Edge], taken: &[bool], at: u32) -> u32
    requires within { All (λ edge. (edge.from < length taken.now)
        × (edge.to < length taken.now)) edges.now }
    requires exists { (from : ℕ) × HasEdge edges.now from at
        × (slice_index_or taken.now from false ≡ false) }
    ensures edge { HasEdge edges.now result at }
    ensures left { slice_index_or taken.now result false ≡ false }
{
    for edge in edges {
        if edge.to == at && !taken[edge.from as usize] {
            return edge.from;
        }
    }
    at
}

// The block that came again, and the steps that led to it since it came first, the last one first.
fn cut(alloc: Global, mut walk: Vec<u32>, at: u32) -> Result<Vec<u32>, NoMemory>
    requires { Contains walk.items at }
    ensures { IfOk result (λ cycle. IsCut at (reverse walk.items) cycle.items) }
{
    let mut cycle = Vec::new(alloc);
    cycle.push(at)?;
    while let Some(block) = walk.pop() {
        if block == at {
            break;
        }
        cycle.push(block)?;
    }
    Ok(cycle)
}

// The place of the least number.
fn least_place(numbers: &[u32]) -> usize
    requires { 0 < length numbers.now }
    ensures { IsFirstBest nat_lt numbers.now (length numbers.now) result }
{
    let mut best = 0;
    for i in 1..numbers.len() {
        if numbers[i] < numbers[best] {
            best = i;
        }
    }
    best
}
