ghost use Rattle.std.specs.Prelude.{◌≡◌, ◌+◌, ◌^◌, ◌<◌, ◌≤◌, ◌++◌, map, zip, length, All, OnOk};
ghost use Rattle.wrap_rows.specs.Normal.{clause_of};
ghost use Rattle.path_encoding.specs.Spots.{AreSpotsOf, Exist, IsBlock, cases_of};
ghost use Rattle.path_encoding.specs.Ends as spec;
ghost use Rattle.path_encoding.specs.Resolved.{is_assume};

use crate::PathSpots;
use crate::exit::add_end;
use crate::lits::{add_not_poison, is_off, is_on};
use crate::vars::{first_of, source_vars};
use ll_links::{BlockId, items_of_a_block};
use ll_tree::{Block, Op};
use ll_verifier::Sound;
use mix_system::System;
use std::alloc::Global;
use wrap_rows::{ValueVars, add_lits};
use wx_base::NoMemory;

/// Adds the clauses of the block at a position: of its assumes, then of its terminator. The
/// variables of its cases stand first among these.
///
/// After want of memory some of the clauses may stand.
pub fn add_block(
    alloc: Global,
    sound: &Sound,
    spots: &PathSpots,
    at: u32,
    place: BlockId,
    block: &Block,
    cases: &[u32],
    into: &mut System,
) -> Result<(), NoMemory>
    requires spots { AreSpotsOf sound.now spots.now }
    requires known { Exist (length into.old.ranges) spots.now }
    requires at { IsBlock sound.now at place.0 block.now }
    requires each { length (cases_of block.now.end) ≤ length cases.now }
    requires cases { All (λ var. var < length into.old.ranges) cases.now }
    requires room { length into.old.clauses
        + length (spec.assumes_at sound.now spots.now at block.now.body)
        + length (spec.end_clauses sound.now spots.now at
        (zip (cases_of block.now.end) cases.now) block.now.end) < 2 ^ 31 }
    ensures { OnOk result (into.new ≡ record into.old {
      clauses = into.old.clauses
          ++ map clause_of (spec.assumes_at sound.now spots.now at block.now.body
          ++ spec.end_clauses sound.now spots.now at
          (zip (cases_of block.now.end) cases.now) block.now.end);
    }) }
{
    add_assumes(alloc, sound, spots, at, place, block, into)?;
    add_end(alloc, sound, spots, at, place, block, cases, into)?;
    Ok(())
}

// The clauses of a block's assumes, in order.
fn add_assumes(
    alloc: Global,
    sound: &Sound,
    spots: &PathSpots,
    at: u32,
    place: BlockId,
    block: &Block,
    into: &mut System,
) -> Result<(), NoMemory>
    requires spots { AreSpotsOf sound.now spots.now }
    requires known { Exist (length into.old.ranges) spots.now }
    requires at { IsBlock sound.now at place.0 block.now }
    requires room { length into.old.clauses + length
        (spec.assumes_at sound.now spots.now at block.now.body) < 2 ^ 31 }
    ensures { OnOk result (into.new ≡ record into.old {
      clauses = into.old.clauses
          ++ map clause_of (spec.assumes_at sound.now spots.now at block.now.body);
    }) }
{
    items_of_a_block();
    let var = spots.blocks[at as usize];
    let phis = block.phis.len() as u32;
    let body = block.body.items();
    for (item, instr) in body.iter().enumerate() {
        if !is_assume(&instr.op) {
            continue;
        }
        let links = sound.links(place, phis + item as u32);
        let first = first_of(links.sources);
        let value = source_vars(spots, first);
        add_assumed(alloc, var, value, into)?;
    }
    Ok(())
}

fn is_assume(op: &Op) -> bool
    ensures { result ≡ is_assume op.now }
{
    match op {
        Op::Assume { .. } => true,
        Op::Bin { .. } | Op::Cmp { .. } | Op::Cast { .. } | Op::Select { .. } | Op::Abs { .. } => {
            false
        }
    }
}

// Where the block is visited, the value is 1.
fn add_assumed(
    alloc: Global,
    block: u32,
    value: ValueVars,
    into: &mut System,
) -> Result<(), NoMemory>
    requires block { block < length into.old.ranges }
    requires number { value.number < length into.old.ranges }
    requires mark { value.mark < length into.old.ranges }
    requires room { length into.old.clauses + 2 < 2 ^ 31 }
    ensures { OnOk result (into.new ≡ record into.old {
      clauses = into.old.clauses ++ map clause_of (spec.assumed block value);
    }) }
{
    add_not_poison(alloc, block, value, into)?;
    add_lits(alloc, into, &[is_off(block), is_on(value.number)])
}
