ghost use Rattle.std.specs.Prelude.{◌≡◌, ◌+◌, ◌^◌, ◌<◌, ◌≤◌, ◌++◌, map, zip, length, slice_index, All, Some, OnOk};
ghost use Rattle.ll_rules.specs.Items.{targets_of};
ghost use Rattle.ll_links.specs.Links.{end_operands};
ghost use Rattle.wrap_rows.specs.Normal.{clause_of};
ghost use Rattle.path_encoding.specs.Spots.{AreSpotsOf, Exist, IsBlock, cases_of, source_at, place_with};
ghost use Rattle.path_encoding.specs.Ends as spec;
ghost use Rattle.path_encoding.specs.Resolved.{places, end_to};

use crate::PathSpots;
use crate::lits::{add_not_poison, is_off, is_on};
use crate::switch::add_switch;
use crate::vars::{block_named, edge_to, first_of, source_vars};
use ll_links::{BlockId, Links, items_of_a_block};
use ll_tree::{Block, End, Range};
use ll_verifier::Sound;
use mix_system::{System, Term};
use std::alloc::Global;
use wrap_rows::{ValueVars, add_lits, at_least, at_most};
use wx_base::NoMemory;

/// Adds the clauses of a block's terminator. The variables of its cases stand first among these.
///
/// After want of memory some of the clauses may stand.
pub fn add_end(
    alloc: Global,
    sound: &Sound,
    spots: &PathSpots,
    at: u32,
    place: BlockId,
    block: &Block,
    cases: &[u32],
    into: &mut System,
) -> Result<(), NoMemory>
    requires spots { AreSpotsOf sound.now spots.now }
    requires known { Exist (length into.old.ranges) spots.now }
    requires at { IsBlock sound.now at place.0 block.now }
    requires each { length (cases_of block.now.end) ≤ length cases.now }
    requires cases { All (λ var. var < length into.old.ranges) cases.now }
    requires room { length into.old.clauses + length (spec.end_clauses sound.now spots.now at
        (zip (cases_of block.now.end) cases.now) block.now.end) < 2 ^ 31 }
    ensures { OnOk result (into.new ≡ record into.old {
      clauses = into.old.clauses ++ map clause_of (spec.end_clauses sound.now spots.now at
          (zip (cases_of block.now.end) cases.now) block.now.end);
    }) }
{
    let links = end_links(sound, at, place, block);
    let first = first_of(links.sources);
    let value = source_vars(spots, first);
    let leaving = Leaving { at, value };
    let end = &block.end;
    add_exit(alloc, sound, spots, leaving, links.blocks, cases, end, into)?;
    Ok(())
}

/// What the terminator of a block names. It takes no memory.
pub fn end_links<'a>(sound: &'a Sound, at: u32, place: BlockId, block: &Block) -> Links<'a>
    requires { IsBlock sound.now at place.0 block.now }
    ensures sources { result.sources.now
        ≡ map (source_at sound.now.func) (end_operands block.now.end) }
    ensures targets { places result.blocks.now
        ≡ map (place_with sound.now.func) (targets_of block.now.end) }
{
    items_of_a_block();
    let item = block.phis.len() as u32 + block.body.len() as u32;
    sound.links(place, item)
}

/// A position, and what the terminator of its block is asked.
#[derive(Clone, Copy)]
pub struct Leaving {
    pub at: u32,
    pub value: ValueVars,
}

// The clauses of a terminator whose targets these are.
fn add_exit(
    alloc: Global,
    sound: &Sound,
    spots: &PathSpots,
    leaving: Leaving,
    targets: &[BlockId],
    cases: &[u32],
    end: &End,
    into: &mut System,
) -> Result<(), NoMemory>
    requires spots { AreSpotsOf sound.now spots.now }
    requires known { Exist (length into.old.ranges) spots.now }
    requires at { leaving.at < length sound.now.flow.order }
    requires number { leaving.value.number < length into.old.ranges }
    requires mark { leaving.value.mark < length into.old.ranges }
    requires each { length (cases_of end.now) ≤ length cases.now }
    requires targets { length targets.now ≡ length (targets_of end.now) }
    requires cases { All (λ var. var < length into.old.ranges) cases.now }
    requires room { length into.old.clauses + length (end_to sound.now spots.now leaving.at
        leaving.value (places targets.now) cases.now end.now) < 2 ^ 31 }
    ensures { OnOk result (into.new ≡ record into.old {
      clauses = into.old.clauses ++ map clause_of (end_to sound.now spots.now leaving.at
          leaving.value (places targets.now) cases.now end.now);
    }) }
{
    let block = spots.blocks[leaving.at as usize];
    match end {
        End::RetVoid => Ok(()),
        End::Br { .. } => Ok(()),
        End::Unreachable => add_lits(alloc, into, &[is_off(block)]),
        End::Ret { .. } => add_return(alloc, sound, block, leaving.value, into),
        End::CondBr { .. } => add_fork(alloc, sound, spots, leaving, targets, into),
        End::Switch { cases: written, .. } => {
            let written = written.items();
            add_switch(alloc, sound, spots, leaving, targets, written, cases, into)
        }
    }
}

// Where the result is `noundef`, it isn't poison and lies in its range.
fn add_return(
    alloc: Global,
    sound: &Sound,
    block: u32,
    value: ValueVars,
    into: &mut System,
) -> Result<(), NoMemory>
    requires block { block < length into.old.ranges }
    requires number { value.number < length into.old.ranges }
    requires mark { value.mark < length into.old.ranges }
    requires room { length into.old.clauses + length (spec.return_clauses sound.now.func.ret_noundef
        sound.now.func.ret_range block value) < 2 ^ 31 }
    ensures { OnOk result (into.new ≡ record into.old {
      clauses = into.old.clauses ++ map clause_of (spec.return_clauses
          sound.now.func.ret_noundef sound.now.func.ret_range block value);
    }) }
{
    let func = sound.func();
    if !func.ret_noundef {
        return Ok(());
    }
    add_not_poison(alloc, block, value, into)?;
    match func.ret_range {
        None => Ok(()),
        Some(range) => add_ranged(alloc, range, block, value, into),
    }
}

// The number lies in the range.
fn add_ranged(
    alloc: Global,
    range: Range,
    block: u32,
    value: ValueVars,
    into: &mut System,
) -> Result<(), NoMemory>
    requires block { block < length into.old.ranges }
    requires number { value.number < length into.old.ranges }
    requires room { length into.old.clauses
        + length (spec.ranged_clauses block value (Some range)) < 2 ^ 31 }
    ensures { OnOk result (into.new ≡ record into.old {
      clauses = into.old.clauses ++ map clause_of (spec.ranged_clauses block value (Some range));
    }) }
{
    let off = is_off(block);
    let number = Term::Var(value.number);
    let low = at_least(number, i128::from(range.lo));
    let high = at_most(number, i128::from(range.hi) - 1);
    if range.hi < range.lo {
        return add_lits(alloc, into, &[off, low, high]);
    }
    add_lits(alloc, into, &[off, low])?;
    add_lits(alloc, into, &[off, high])
}

// On 1 to the first target, on 0 to the second.
fn add_fork(
    alloc: Global,
    sound: &Sound,
    spots: &PathSpots,
    leaving: Leaving,
    targets: &[BlockId],
    into: &mut System,
) -> Result<(), NoMemory>
    requires spots { AreSpotsOf sound.now spots.now }
    requires known { Exist (length into.old.ranges) spots.now }
    requires at { leaving.at < length sound.now.flow.order }
    requires number { leaving.value.number < length into.old.ranges }
    requires mark { leaving.value.mark < length into.old.ranges }
    requires room { length into.old.clauses + length (spec.fork_clauses sound.now spots.now
        leaving.at leaving.value (slice_index (places targets.now) 0)
        (slice_index (places targets.now) 1)) < 2 ^ 31 }
    ensures { OnOk result (into.new ≡ record into.old {
      clauses = into.old.clauses ++ map clause_of (spec.fork_clauses sound.now spots.now
          leaving.at leaving.value (slice_index (places targets.now) 0)
          (slice_index (places targets.now) 1));
    }) }
{
    let when_set = block_named(targets, 0);
    let when_clear = block_named(targets, 1);
    let block = spots.blocks[leaving.at as usize];
    let one = edge_to(sound, spots, leaving.at, when_set);
    let zero = edge_to(sound, spots, leaving.at, when_clear);
    add_not_poison(alloc, block, leaving.value, into)?;
    let same = when_set.0 == when_clear.0;
    add_branch(alloc, same, block, leaving.value.number, one, zero, into)
}

fn add_branch(
    alloc: Global,
    same: bool,
    block: u32,
    number: u32,
    when_set: u32,
    when_clear: u32,
    into: &mut System,
) -> Result<(), NoMemory>
    requires block { block < length into.old.ranges }
    requires number { number < length into.old.ranges }
    requires when_set { when_set < length into.old.ranges }
    requires when_clear { when_clear < length into.old.ranges }
    requires room { length into.old.clauses
        + length (spec.branch_clauses same block number when_set when_clear) < 2 ^ 31 }
    ensures { OnOk result (into.new ≡ record into.old {
      clauses = into.old.clauses
          ++ map clause_of (spec.branch_clauses same block number when_set when_clear);
    }) }
{
    if same {
        return Ok(());
    }
    let off = is_off(block);
    add_lits(alloc, into, &[off, is_off(number), is_on(when_set)])?;
    add_lits(alloc, into, &[off, is_on(number), is_on(when_clear)])
}
