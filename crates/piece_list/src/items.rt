ghost use Rattle.std.specs.Prelude.{◌+◌, OnOk};
ghost use Rattle.ll_rules.specs.Items.{OfPhi, OfInstr};
ghost use Rattle.value_pieces.specs.Sources.{AreConstants};
ghost use Rattle.piece_list.specs.Drafts.{IsItem, IsDrafted, front_of, IsOver};

use crate::Declared;
use ir_constants::Constants;
use ll_links::Position;
use ll_tree::{Instr, Phi};
use ll_verifier::Sound;
use portion_cuts::block_at;
use std::alloc::Global;
use value_pieces::{op_piece, phi_piece};
use wx_base::NoMemory;

/// Adds the piece of a phi, which stands behind so many items of the block at a position.
pub fn declare_phi(
    alloc: Global,
    sound: &Sound,
    constants: &Constants,
    at: u32,
    item: u32,
    phi: &Phi,
    into: &mut Declared,
) -> Result<(), NoMemory>
    requires here { IsItem sound.now at item (OfPhi phi.now) }
    requires constants { AreConstants constants.now into.old.spots }
    requires drafted { IsDrafted sound.now at (front_of sound.now at item) into.old }
    ensures { OnOk result (IsOver sound.now at (item + 1) into.old into.new) }
{
    let place = block_at(sound, Position(at));
    let piece = phi_piece(alloc, sound, &into.spots, constants, at, place, item, phi)?;
    let id = sound.links(place, item).result;
    into.keep(id, piece)?;
    Ok(())
}

/// Adds the piece of an instruction, which stands behind so many items of the block at a position. An assume has
/// none.
pub fn declare_instr(
    sound: &Sound,
    constants: &Constants,
    at: u32,
    item: u32,
    instr: &Instr,
    into: &mut Declared,
) -> Result<(), NoMemory>
    requires here { IsItem sound.now at item (OfInstr instr.now) }
    requires constants { AreConstants constants.now into.old.spots }
    requires drafted { IsDrafted sound.now at (front_of sound.now at item) into.old }
    ensures { OnOk result (IsOver sound.now at (item + 1) into.old into.new) }
{
    let place = block_at(sound, Position(at));
    let Some(piece) = op_piece(sound, &into.spots, constants, place, item, instr) else {
        return Ok(());
    };
    let id = sound.links(place, item).result;
    into.keep(id, piece)?;
    Ok(())
}
