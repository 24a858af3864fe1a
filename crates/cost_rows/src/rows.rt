ghost use Rattle.std.specs.Prelude.{◌≡◌, ◌+◌, ◌^◌, ◌<◌, ◌++◌, ◌∷◌, [], ℕ, Bool, true, length, All, IfOk, OnOk, OnErr};
ghost use Rattle.wrap_rows.specs.Normal.{row_of};
ghost use Rattle.wrap_rows.specs.Small.{IsCompact};
ghost use Rattle.sound_costs.specs.Costs.{AreCostsOf};
ghost use Rattle.portion_cuts.specs.Paths.{is_in, is_within};
ghost use Rattle.cost_rows.specs.Rows.{row_parts, AreVarsOf, AreFlags};

use crate::PathVars;
use crate::flags::{all_flags, portion_flags, region_flags};
use crate::parts::{push_blocks, push_edges};
use ll_verifier::Sound;
use mix_system::System;
use portion_cuts::{Portion, Region};
use sound_costs::Costs;
use std::alloc::Global;
use wrap_rows::add_sum;
use wx_base::NoMemory;

/// Adds the row of all blocks, which is what a path costs, and gives its number.
///
/// A compact system stays compact. Where memory is wanting the system stands as before.
pub fn add_cost_row(
    alloc: Global,
    sound: &Sound,
    costs: &Costs,
    vars: PathVars<'_>,
    into: &mut System,
) -> Result<u32, NoMemory>
    requires costs { AreCostsOf sound.now.func costs.now }
    requires vars { AreVarsOf sound.now vars (length into.old.ranges) }
    requires room { length into.old.rows + 1 < 2 ^ 31 }
    ensures number { IfOk result (λ row. row ≡ length into.old.rows) }
    ensures ok { OnOk result (into.new ≡ record into.old {
      rows = into.old.rows
          ++ row_of (row_parts sound.now costs.now (λ at. true) vars.entry) ∷ [];
    }) }
    ensures compact { IsCompact into.old → OnOk result (IsCompact into.new) }
    ensures err { OnErr result (into.new ≡ into.old) }
{
    let flags = all_flags(alloc, vars.blocks.len())?;
    add_row(alloc, sound, costs, vars, flags.as_slice(), into)
}

/// Adds the row of a portion, which is what a path spends in it, and gives its number.
///
/// A compact system stays compact. Where memory is wanting the system stands as before.
pub fn add_portion_row(
    alloc: Global,
    sound: &Sound,
    costs: &Costs,
    vars: PathVars<'_>,
    portion: Portion,
    into: &mut System,
) -> Result<u32, NoMemory>
    requires costs { AreCostsOf sound.now.func costs.now }
    requires vars { AreVarsOf sound.now vars (length into.old.ranges) }
    requires room { length into.old.rows + 1 < 2 ^ 31 }
    ensures number { IfOk result (λ row. row ≡ length into.old.rows) }
    ensures ok { OnOk result (into.new ≡ record into.old {
      rows = into.old.rows
          ++ row_of (row_parts sound.now costs.now (is_in portion) vars.entry) ∷ [];
    }) }
    ensures compact { IsCompact into.old → OnOk result (IsCompact into.new) }
    ensures err { OnErr result (into.new ≡ into.old) }
{
    let flags = portion_flags(alloc, vars.blocks.len(), portion)?;
    add_row(alloc, sound, costs, vars, flags.as_slice(), into)
}

/// Adds the row of a region, which is what a path spends in it, and gives its number.
///
/// A compact system stays compact. Where memory is wanting the system stands as before.
pub fn add_region_row(
    alloc: Global,
    sound: &Sound,
    costs: &Costs,
    vars: PathVars<'_>,
    region: &Region,
    into: &mut System,
) -> Result<u32, NoMemory>
    requires costs { AreCostsOf sound.now.func costs.now }
    requires vars { AreVarsOf sound.now vars (length into.old.ranges) }
    requires region { All (λ block. block.0 < length sound.now.flow.order) region.now.blocks.items }
    requires room { length into.old.rows + 1 < 2 ^ 31 }
    ensures number { IfOk result (λ row. row ≡ length into.old.rows) }
    ensures ok { OnOk result (into.new ≡ record into.old {
      rows = into.old.rows
          ++ row_of (row_parts sound.now costs.now (is_within region.now) vars.entry) ∷ [];
    }) }
    ensures compact { IsCompact into.old → OnOk result (IsCompact into.new) }
    ensures err { OnErr result (into.new ≡ into.old) }
{
    let flags = region_flags(alloc, vars.blocks.len(), region.blocks.as_slice())?;
    add_row(alloc, sound, costs, vars, flags.as_slice(), into)
}

// Adds the row of the blocks that are flagged.
fn add_row(
    alloc: Global,
    sound: &Sound,
    costs: &Costs,
    vars: PathVars<'_>,
    flags: &[bool],
    into: &mut System,
) -> Result<u32, NoMemory>
    requires costs { AreCostsOf sound.now.func costs.now }
    requires vars { AreVarsOf sound.now vars (length into.old.ranges) }
    requires size { length flags.now ≡ length sound.now.flow.order }
    requires room { length into.old.rows + 1 < 2 ^ 31 }
    ensures number { IfOk result (λ row. row ≡ length into.old.rows) }
    ensures ok { (inside : ℕ → Bool) → AreFlags inside flags.now → OnOk result
        (into.new ≡ record into.old {
          rows = into.old.rows
              ++ row_of (row_parts sound.now costs.now inside vars.entry) ∷ [];
        }) }
    ensures compact { IsCompact into.old → OnOk result (IsCompact into.new) }
    ensures err { OnErr result (into.new ≡ into.old) }
{
    let mut parts = Vec::new(alloc);
    push_blocks(sound, costs, vars.blocks, flags, &mut parts)?;
    push_edges(sound, costs, vars.edges, flags, &mut parts)?;
    add_sum(alloc, into, parts.as_slice())
}
