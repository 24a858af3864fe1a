ghost use Rattle.std.specs.Prelude.{◌≡◌, ◌==◌, ◌<◌, ◌≤◌, ◌^◌, true, length, All, IfOk, vec_len};
ghost use Rattle.std.specs.List.{list_any};
ghost use Rattle.portion_cuts.specs.Paths as spec;
ghost use Rattle.cost_rows.specs.Rows.{AreFlags};

use ll_links::Position;
use portion_cuts::Portion;
use std::alloc::Global;
use wx_base::NoMemory;

/// A flag for each of so many positions, all true.
pub fn all_flags(alloc: Global, count: usize) -> Result<Vec<bool>, NoMemory>
    ensures size { IfOk result (λ flags. vec_len flags ≡ count) }
    ensures flags { IfOk result (λ flags. AreFlags (λ at. true) flags.items) }
{
    Ok(vec![in alloc; true; count]?)
}

/// True at the positions of a portion.
pub fn portion_flags(alloc: Global, count: usize, portion: Portion) -> Result<Vec<bool>, NoMemory>
    ensures size { IfOk result (λ flags. vec_len flags ≡ count) }
    ensures flags { IfOk result (λ flags. AreFlags (spec.is_in portion) flags.items) }
{
    let mut flags = Vec::new(alloc);
    for at in 0..count {
        flags.push(portion.from.0 as usize <= at && at < portion.to.0 as usize)?;
    }
    Ok(flags)
}

/// True at the given positions.
pub fn region_flags(alloc: Global, count: usize, blocks: &[Position]) -> Result<Vec<bool>, NoMemory>
    requires within { All (λ block. block.0 < count) blocks.now }
    ensures size { IfOk result (λ flags. vec_len flags ≡ count) }
    ensures flags { IfOk result (λ flags. AreFlags
        (λ at. list_any (λ block. block.0 == at) blocks.now) flags.items) }
{
    let mut flags = vec![in alloc; false; count]?;
    for block in blocks {
        flags[block.0 as usize] = true;
    }
    Ok(flags)
}
