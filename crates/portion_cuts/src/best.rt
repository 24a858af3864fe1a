ghost use Rattle.std.specs.Prelude.{◌≡◌, ◌+◌, ◌<◌, ◌≤◌, ◌^◌, [], max, length, slice_index, slice_set, IfOk, vec_len};
ghost use Rattle.flow_graph.specs.Paths.{HasEdge};
ghost use Rattle.ll_verifier.specs.Sound.{IsSound};
ghost use Rattle.sound_costs.specs.Costs.{AreCostsOf};
ghost use Rattle.portion_cuts.specs.Paths.{costs_at, place_at, IsLongest};
ghost use Rattle.portion_cuts.specs.Paths as spec;
ghost use Rattle.portion_cuts.specs.Best.{AreBest, IsBounded};

use crate::Portion;
use ll_links::{BlockId, Position};
use ll_verifier::{PositionEdge, Sound};
use sound_costs::Costs;
use std::alloc::Global;
use wx_base::NoMemory;

/// What a path from the entry spends in a portion at most, for the costs of the blocks in it and of the
/// edges out of these. The time is linear in blocks and edges, but for the look-up of an edge's cost;
/// it takes memory for one number for each block.
pub fn longest(
    alloc: Global,
    sound: &Sound,
    costs: &Costs,
    portion: Portion,
) -> Result<u64, NoMemory>
    requires { AreCostsOf sound.now.func costs.now }
    ensures { IfOk result (IsLongest sound.now costs.now portion) }
{
    let mut best = list_staying(alloc, sound, costs, portion)?;
    Ok(relax_all(sound, costs, portion, best.as_mut_slice()))
}

// Lets paths go on over all edges, from the last to the first, and gives what they spend at most from
// the entry on.
fn relax_all(sound: &Sound, costs: &Costs, portion: Portion, best: &mut [u64]) -> u64
    requires costs { AreCostsOf sound.now.func costs.now }
    requires size { length best.old ≡ length sound.now.flow.order }
    requires staying { AreBest (costs_at sound.now costs.now) portion [] best.old }
    requires bounded { IsBounded best.old }
    ensures { IsLongest sound.now costs.now portion result }
{
    let edges = sound.edges();
    let mut left = edges.len();
    while left > 0 {
        left -= 1;
        relax(sound, costs, portion, edges[left], best);
    }
    best[0]
}

// What a path spends that ends where it begins, for each position.
fn list_staying(
    alloc: Global,
    sound: &Sound,
    costs: &Costs,
    portion: Portion,
) -> Result<Vec<u64>, NoMemory>
    requires { AreCostsOf sound.now.func costs.now }
    ensures size { IfOk result (λ best. vec_len best ≡ length sound.now.flow.order) }
    ensures best { IfOk result (λ best.
        AreBest (costs_at sound.now costs.now) portion [] best.items) }
    ensures bounded { IfOk result (λ best. IsBounded best.items) }
{
    let mut best = Vec::new(alloc);
    for at in 0..sound.order().len() {
        best.push(staying(sound, costs, portion, Position(at as u32)))?;
    }
    Ok(best)
}

// Lets paths from the edge's source go on over the edge.
fn relax(sound: &Sound, costs: &Costs, portion: Portion, edge: PositionEdge, best: &mut [u64])
    requires costs { AreCostsOf sound.now.func costs.now }
    requires edge { HasEdge sound.now.flow.edges edge.from.0 edge.to.0 }
    requires forward { edge.from.0 < edge.to.0 }
    requires within { edge.to.0 < length sound.now.flow.order }
    requires size { length best.old ≡ length sound.now.flow.order }
    requires few { length best.old ≤ 256 }
    requires bounded { IsBounded best.old }
    ensures best { best.new ≡ slice_set best.old edge.from.0
        (max (slice_index best.old edge.from.0) (spec.leaving (costs_at sound.now costs.now) portion
        edge.from.0 edge.to.0 + slice_index best.old edge.to.0)) }
    ensures bounded { IsBounded best.new }
{
    let over = leaving(sound, costs, portion, edge) + best[edge.to.0 as usize];
    let from = edge.from.0 as usize;
    best[from] = best[from].max(over);
}

// What a path spends at its last block.
fn staying(sound: &Sound, costs: &Costs, portion: Portion, at: Position) -> u64
    requires costs { AreCostsOf sound.now.func costs.now }
    requires within { at.0 < length sound.now.flow.order }
    ensures value { result ≡ spec.staying (costs_at sound.now costs.now) portion at.0 }
    ensures small { result < 2 ^ 32 }
{
    if is_in(portion, at) {
        u64::from(costs.of(block_at(sound, at)))
    } else {
        0
    }
}

// What it spends at a block that it leaves by an edge.
fn leaving(sound: &Sound, costs: &Costs, portion: Portion, edge: PositionEdge) -> u64
    requires costs { AreCostsOf sound.now.func costs.now }
    requires edge { HasEdge sound.now.flow.edges edge.from.0 edge.to.0 }
    requires forward { edge.from.0 < edge.to.0 }
    requires within { edge.to.0 < length sound.now.flow.order }
    ensures value { result ≡ spec.leaving (costs_at sound.now costs.now) portion
        edge.from.0 edge.to.0 }
    ensures small { result < 2 ^ 33 }
{
    if is_in(portion, edge.from) {
        let (from, to) = (block_at(sound, edge.from), block_at(sound, edge.to));
        u64::from(costs.of(from)) + u64::from(costs.edge(from, to))
    } else {
        0
    }
}

fn is_in(portion: Portion, at: Position) -> bool
    ensures { result ≡ spec.is_in portion at.0 }
{
    portion.from.0 <= at.0 && at.0 < portion.to.0
}

/// The block at a position.
pub fn block_at(sound: &Sound, at: Position) -> BlockId
    requires { at.0 < length sound.now.flow.order }
    ensures place { result.0 ≡ place_at sound.now at.0 }
    ensures within { result.0 < length sound.now.func.blocks }
    ensures sound { IsSound sound.now }
{
    sound.order()[at.0 as usize]
}
