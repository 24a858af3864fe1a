ghost use Rattle.std.specs.Prelude.{◌≡◌, ◌<◌, ◌≤◌, ◌+◌, ◌-◌, ◌^◌, ◌++◌, ◌∷◌, [], pos, length, IfOk, OnOk};
ghost use Rattle.wrap_rows.specs.Small.{IsCompact};
ghost use Rattle.ll_tree.specs.Formed.{IsFormedParam};
ghost use Rattle.ir_pieces.specs.Lists.{ArePlaced};
ghost use Rattle.path_encoding.specs.Spots.{Exist};
ghost use Rattle.piece_list.specs.Params.{param_ranges, param_vars, param_piece};
ghost use Rattle.piece_list.specs.Drafts.{AreLeft};

use crate::Declared;
use ir_pieces::{Placed, place, range_piece};
use ll_tree::Param;
use ll_verifier::Sound;
use mix_system::System;
use wrap_rows::{ValueVars, greatest};
use wx_base::NoMemory;

/// Adds the variables of the parameters, and the pieces of those with a range.
pub fn declare_params(sound: &Sound, into: &mut Declared) -> Result<(), NoMemory>
    requires none { into.old.placed.items ≡ [] }
    requires values { length sound.now.func.params ≤ length into.old.spots.values.items }
    requires exist { Exist (length into.old.system.ranges) into.old.spots }
    requires room { length into.old.system.ranges ≤ 2 ^ 30 }
    ensures { OnOk result
        (AreLeft sound.now (length sound.now.func.params) into.old into.new) }
{
    let params = sound.func().params.items();
    for (at, param) in params.iter().enumerate() {
        let vars = declare_param(param, &mut into.system, &mut into.placed)?;
        into.spots.values[at] = vars;
    }
    Ok(())
}

// The number of an argument and, where it has a range, the piece that marks it. Without one it is never poison.
fn declare_param(
    param: &Param,
    system: &mut System,
    placed: &mut Vec<Placed>,
) -> Result<ValueVars, NoMemory>
    requires formed { IsFormedParam param.now }
    requires room { length system.old.ranges + 2 < 2 ^ 31 }
    ensures vars { IfOk result
        (λ vars. vars ≡ param_vars (length system.old.ranges) param.now) }
    ensures system { OnOk result (system.new ≡ record system.old {
      ranges = system.old.ranges ++ param_ranges param.now;
    }) }
    ensures placed { OnOk result (placed.new.items
        ≡ placed.old.items ++ param_piece (length system.old.ranges) param.now) }
    ensures stand { ArePlaced 0 (length system.old.ranges) placed.old.items
        → OnOk result (ArePlaced 0 (length system.new.ranges) placed.new.items) }
    ensures compact { IsCompact system.old → OnOk result (IsCompact system.new) }
{
    let number = add_number(param.width, system)?;
    let Some(piece) = range_piece(param.range, param.width, number) else {
        return Ok(ValueVars { number, mark: 0 });
    };
    let vars = place(placed, piece, system)?;
    Ok(vars)
}

// The number of an argument of this width.
fn add_number(width: u32, system: &mut System) -> Result<u32, NoMemory>
    requires width { width < 63 }
    requires room { length system.old.ranges + 1 < 2 ^ 31 }
    ensures number { IfOk result (λ number. number ≡ length system.old.ranges) }
    ensures system { OnOk result (system.new ≡ record system.old {
      ranges = system.old.ranges ++ (pos 0, pos (2 ^ width - 1)) ∷ [];
    }) }
{
    let number = system.add_var(0, greatest(width))?;
    Ok(number)
}
