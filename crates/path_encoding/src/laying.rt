ghost use Rattle.std.specs.Prelude.{◌≡◌, ◌+◌, ◌*◌, ◌^◌, ◌<◌, ◌≤◌, ◌++◌, map, flat_map, zip, length, true, All, OnOk};
ghost use Rattle.wrap_rows.specs.Normal.{clause_of};
ghost use Rattle.wrap_rows.specs.Piece.{Lays, names_own_rows};
ghost use Rattle.wrap_rows.specs.Small.{IsCompact};
ghost use Rattle.path_encoding.specs.Spots.{AreSpotsOf, Exist};
ghost use Rattle.path_encoding.specs.PathLayout.{strict_clauses, start_clauses, visit_clauses, path_layout};

use crate::PathSpots;
use crate::block::add_block;
use crate::lits::{is_off, is_on};
use crate::place::{block_in, case_count, place_at};
use crate::rows::{add_flow_clauses, add_in_rows, add_out_rows};
use ll_tree::Param;
use ll_verifier::Sound;
use mix_system::System;
use std::alloc::Global;
use wrap_rows::{ValueVars, add_lits};
use wx_base::NoMemory;

/// Adds the rows of flow and the clauses of the function's paths. The spots are the function's, and
/// their variables exist. The clauses name no other rows, and their numbers are small: a compact
/// system stays compact.
///
/// After want of memory some of them may stand.
pub fn lay(
    alloc: Global,
    sound: &Sound,
    spots: &PathSpots,
    into: &mut System,
) -> Result<(), NoMemory>
    requires spots { AreSpotsOf sound.now spots.now }
    requires known { Exist (length into.old.ranges) spots.now }
    requires rows { length into.old.rows + 2 * length sound.now.flow.order < 2 ^ 31 }
    requires clauses { length into.old.clauses
        + length (path_layout sound.now spots.now).clauses < 2 ^ 31 }
    ensures ok { OnOk result (Lays (path_layout sound.now spots.now) into.old into.new) }
    ensures own_rows { names_own_rows (path_layout sound.now spots.now) ≡ true }
    ensures compact { IsCompact into.old → OnOk result (IsCompact into.new) }
{
    let first = into.rows();
    let blocks = sound.order().len() as u32;
    add_in_rows(alloc, sound, spots, blocks, into)?;
    add_out_rows(alloc, sound, spots, blocks, into)?;
    add_start(alloc, sound, spots, into)?;
    add_flow_clauses(alloc, first, into)?;
    add_visits(alloc, sound, spots, blocks, into)?;
    Ok(())
}

// The entry is visited, and no strict parameter's argument is poison.
fn add_start(
    alloc: Global,
    sound: &Sound,
    spots: &PathSpots,
    into: &mut System,
) -> Result<(), NoMemory>
    requires spots { AreSpotsOf sound.now spots.now }
    requires known { Exist (length into.old.ranges) spots.now }
    requires some { 0 < length sound.now.flow.order }
    requires room { length into.old.clauses
        + length (start_clauses sound.now spots.now) < 2 ^ 31 }
    ensures { OnOk result (into.new ≡ record into.old {
      clauses = into.old.clauses ++ map clause_of (start_clauses sound.now spots.now);
    }) }
{
    let entry = spots.blocks[0];
    add_lits(alloc, into, &[is_on(entry)])?;
    let params = sound.func().params.items();
    let values = spots.values.as_slice();
    add_strict(alloc, params, values, into)?;
    Ok(())
}

// The argument of a strict parameter isn't poison.
fn add_strict(
    alloc: Global,
    params: &[Param],
    values: &[ValueVars],
    into: &mut System,
) -> Result<(), NoMemory>
    requires each { length params.now ≤ length values.now }
    requires known { All (λ value. value.mark < length into.old.ranges) values.now }
    requires room { length into.old.clauses
        + length (flat_map strict_clauses (zip params.now values.now)) < 2 ^ 31 }
    ensures { OnOk result (into.new ≡ record into.old {
      clauses = into.old.clauses
          ++ map clause_of (flat_map strict_clauses (zip params.now values.now));
    }) }
{
    for (item, param) in params.iter().enumerate() {
        if !param.strict {
            continue;
        }
        let mark = values[item].mark;
        add_lits(alloc, into, &[is_off(mark)])?;
    }
    Ok(())
}

// The clauses of each block, in the kept order.
fn add_visits(
    alloc: Global,
    sound: &Sound,
    spots: &PathSpots,
    blocks: u32,
    into: &mut System,
) -> Result<(), NoMemory>
    requires spots { AreSpotsOf sound.now spots.now }
    requires known { Exist (length into.old.ranges) spots.now }
    requires blocks { blocks ≡ length sound.now.flow.order }
    requires room { length into.old.clauses
        + length (visit_clauses sound.now spots.now) < 2 ^ 31 }
    ensures { OnOk result (into.new ≡ record into.old {
      clauses = into.old.clauses ++ map clause_of (visit_clauses sound.now spots.now);
    }) }
{
    let all = spots.cases.as_slice();
    let mut before = 0;
    for at in 0..blocks {
        let place = place_at(sound, at);
        let block = block_in(sound, place);
        let cases = all.split_at(before).1;
        add_block(alloc, sound, spots, at, place, block, cases, into)?;
        let count = case_count(&block.end);
        before += count;
    }
    Ok(())
}
