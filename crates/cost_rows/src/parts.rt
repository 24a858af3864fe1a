ghost use Rattle.std.specs.Prelude.{◌≡◌, ◌<◌, ◌≤◌, ◌+◌, ◌*◌, ◌++◌, ◌^◌, ℕ, Bool, if◌then◌else◌, length, All, OnOk};
ghost use Rattle.flow_graph.specs.Paths.{HasEdge};
ghost use Rattle.wrap_rows.specs.Normal.{sizes};
ghost use Rattle.sound_costs.specs.Costs.{AreCostsOf};
ghost use Rattle.portion_cuts.specs.Paths.{costs_at};
ghost use Rattle.cost_rows.specs.Rows.{block_row, edge_row, AreFlags};

use ll_links::Position;
use ll_verifier::{PositionEdge, Sound};
use mix_system::Part;
use portion_cuts::block_at;
use sound_costs::Costs;
use wrap_rows::times;
use wx_base::NoMemory;

/// Puts the variable of each block times what it costs, where it is flagged.
pub fn push_blocks(
    sound: &Sound,
    costs: &Costs,
    vars: &[u32],
    flags: &[bool],
    parts: &mut Vec<Part>,
) -> Result<(), NoMemory>
    requires costs { AreCostsOf sound.now.func costs.now }
    requires size { length vars.now ≡ length sound.now.flow.order }
    requires flags { length flags.now ≡ length sound.now.flow.order }
    ensures parts { (inside : ℕ → Bool) → AreFlags inside flags.now → OnOk result
        (parts.new.items ≡ parts.old.items
        ++ block_row (costs_at sound.now costs.now) inside 0 vars.now) }
    ensures known { (count : ℕ) → All (λ var. var < count) vars.now
        → All (λ part. part.var < count) parts.old.items
        → OnOk result (All (λ part. part.var < count) parts.new.items) }
    ensures small { OnOk result (sizes parts.new.items ≤ sizes parts.old.items + 2 ^ 40) }
{
    for at in 0..sound.order().len() {
        let cost = block_cost(sound, costs, flags, Position(at as u32));
        parts.push(times(i128::from(cost), vars[at]))?;
    }
    Ok(())
}

/// Puts the variable of each edge times what it costs, where the block that it leaves is flagged.
pub fn push_edges(
    sound: &Sound,
    costs: &Costs,
    vars: &[u32],
    flags: &[bool],
    parts: &mut Vec<Part>,
) -> Result<(), NoMemory>
    requires costs { AreCostsOf sound.now.func costs.now }
    requires size { length vars.now ≡ length sound.now.flow.edges }
    requires flags { length flags.now ≡ length sound.now.flow.order }
    ensures parts { (inside : ℕ → Bool) → AreFlags inside flags.now → OnOk result
        (parts.new.items ≡ parts.old.items
        ++ edge_row (costs_at sound.now costs.now) inside sound.now.flow.edges vars.now) }
    ensures known { (count : ℕ) → All (λ var. var < count) vars.now
        → All (λ part. part.var < count) parts.old.items
        → OnOk result (All (λ part. part.var < count) parts.new.items) }
    ensures small { OnOk result (sizes parts.new.items ≤ sizes parts.old.items + 2 ^ 48) }
{
    let edges = sound.edges();
    for (k, var) in vars.iter().enumerate() {
        let cost = edge_cost(sound, costs, flags, edges[k]);
        parts.push(times(i128::from(cost), *var))?;
    }
    Ok(())
}

// What a block costs, where it is flagged.
fn block_cost(sound: &Sound, costs: &Costs, flags: &[bool], at: Position) -> u32
    requires costs { AreCostsOf sound.now.func costs.now }
    requires within { at.0 < length sound.now.flow.order }
    requires flags { length flags.now ≡ length sound.now.flow.order }
    ensures { (inside : ℕ → Bool) → AreFlags inside flags.now → result
        ≡ if inside at.0 then (costs_at sound.now costs.now).block at.0 else 0 }
{
    if flags[at.0 as usize] {
        costs.of(block_at(sound, at))
    } else {
        0
    }
}

// What an edge costs, where the block that it leaves is flagged.
fn edge_cost(sound: &Sound, costs: &Costs, flags: &[bool], edge: PositionEdge) -> u32
    requires costs { AreCostsOf sound.now.func costs.now }
    requires edge { HasEdge sound.now.flow.edges edge.from.0 edge.to.0 }
    requires from { edge.from.0 < length sound.now.flow.order }
    requires to { edge.to.0 < length sound.now.flow.order }
    requires flags { length flags.now ≡ length sound.now.flow.order }
    ensures { (inside : ℕ → Bool) → AreFlags inside flags.now → result
        ≡ if inside edge.from.0 then (costs_at sound.now costs.now).edge edge.from.0 edge.to.0
        else 0 }
{
    if flags[edge.from.0 as usize] {
        costs.edge(block_at(sound, edge.from), block_at(sound, edge.to))
    } else {
        0
    }
}
