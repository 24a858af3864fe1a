ghost use Rattle.std.specs.Prelude.{◌≡◌, ◌+◌, ◌<◌, [], length, map, OnOk};
ghost use Rattle.ll_rules.specs.Items.{OfPhi};
ghost use Rattle.ll_verifier.specs.Sound.{IsSound};
ghost use Rattle.path_encoding.specs.Spots.{block_at};
ghost use Rattle.value_pieces.specs.Sources.{AreConstants};
ghost use Rattle.piece_list.specs.Drafts.{IsDrafted, IsOver};

use crate::Declared;
use crate::items::{declare_instr, declare_phi};
use crate::place::block_of;
use ir_constants::Constants;
use ll_tree::{Instr, Phi};
use ll_verifier::Sound;
use std::alloc::Global;
use wx_base::NoMemory;

/// Adds the pieces of the blocks, in the kept order.
pub fn declare_blocks(
    alloc: Global,
    sound: &Sound,
    constants: &Constants,
    blocks: u32,
    into: &mut Declared,
) -> Result<(), NoMemory>
    requires blocks { blocks ≡ length sound.now.flow.order }
    requires constants { AreConstants constants.now into.old.spots }
    requires drafted { IsDrafted sound.now 0 [] into.old }
    ensures { OnOk result
        (IsOver sound.now (length sound.now.flow.order) 0 into.old into.new) }
{
    for at in 0..blocks {
        declare_block(alloc, sound, constants, at, into)?;
    }
    Ok(())
}

fn declare_block(
    alloc: Global,
    sound: &Sound,
    constants: &Constants,
    at: u32,
    into: &mut Declared,
) -> Result<(), NoMemory>
    requires within { at < length sound.now.flow.order }
    requires constants { AreConstants constants.now into.old.spots }
    requires drafted { IsDrafted sound.now at [] into.old }
    ensures { OnOk result (IsOver sound.now (at + 1) 0 into.old into.new) }
{
    let block = block_of(sound, at);
    let phis = block.phis.items();
    let body = block.body.items();
    declare_phis(alloc, sound, constants, at, phis, into)?;
    declare_body(sound, constants, at, phis.len(), body, into)?;
    Ok(())
}

// The phis of the block at a position.
fn declare_phis(
    alloc: Global,
    sound: &Sound,
    constants: &Constants,
    at: u32,
    phis: &[Phi],
    into: &mut Declared,
) -> Result<(), NoMemory>
    requires sound { IsSound sound.now }
    requires within { at < length sound.now.flow.order }
    requires phis { (block_at sound.now at).phis ≡ phis.now }
    requires constants { AreConstants constants.now into.old.spots }
    requires drafted { IsDrafted sound.now at [] into.old }
    ensures { OnOk result (IsOver sound.now at (length phis.now) into.old into.new) }
{
    for (item, phi) in phis.iter().enumerate() {
        declare_phi(alloc, sound, constants, at, item as u32, phi, into)?;
    }
    Ok(())
}

// The instructions of the block at a position, which stand behind so many phis.
fn declare_body(
    sound: &Sound,
    constants: &Constants,
    at: u32,
    phis: usize,
    body: &[Instr],
    into: &mut Declared,
) -> Result<(), NoMemory>
    requires sound { IsSound sound.now }
    requires within { at < length sound.now.flow.order }
    requires phis { length (block_at sound.now at).phis ≡ phis }
    requires body { (block_at sound.now at).body ≡ body.now }
    requires constants { AreConstants constants.now into.old.spots }
    requires drafted { IsDrafted sound.now at
        (map OfPhi (block_at sound.now at).phis) into.old }
    ensures { OnOk result (IsOver sound.now at (phis + length body.now) into.old into.new) }
{
    for (k, instr) in body.iter().enumerate() {
        declare_instr(sound, constants, at, (phis + k) as u32, instr, into)?;
    }
    Ok(())
}
