ghost use Rattle.std.specs.Prelude.{◌≡◌, ◌≤◌, ◌^◌, length, IfOk};
ghost use Rattle.ll_rules.specs.Items.{values_of};
ghost use Rattle.path_encoding.specs.Spots.{AreSpotsOf, Exist};
ghost use Rattle.value_pieces.specs.Sources.{AreConstants};
ghost use Rattle.piece_list.specs.Values.{AreDeclared};

use crate::Declared;
use crate::blocks::declare_blocks;
use crate::params::declare_params;
use ir_constants::Constants;
use ll_verifier::Sound;
use mix_system::System;
use path_encoding::PathSpots;
use std::alloc::Global;
use wx_base::NoMemory;

/// Adds the variables of all values to a system: of the parameters, then of phis and instructions with a result,
/// block by block in the kept order. It gives where each value stands, and the pieces.
///
/// There are spots of blocks, edges, cases and constants, and one for each value, whatever it is. What it is given
/// is lost where memory is wanting.
pub fn declare_values(
    alloc: Global,
    sound: &Sound,
    constants: &Constants,
    spots: PathSpots,
    system: System,
) -> Result<Declared, NoMemory>
    requires constants { AreConstants constants.now spots }
    requires spots { AreSpotsOf sound.now spots }
    requires values { length spots.values.items ≡ length (values_of sound.now.func) }
    requires exist { Exist (length system.ranges) spots }
    requires room { length system.ranges ≤ 2 ^ 30 }
    ensures { IfOk result (AreDeclared sound.now spots system) }
{
    let blocks = sound.order().len() as u32;
    let mut made = Declared {
        system,
        spots,
        placed: Vec::new(alloc),
    };
    declare_params(sound, &mut made)?;
    declare_blocks(alloc, sound, constants, blocks, &mut made)?;
    Ok(made)
}
