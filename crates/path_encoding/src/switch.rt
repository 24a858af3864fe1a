ghost use Rattle.std.specs.Prelude.{◌≡◌, ◌+◌, ◌*◌, ◌^◌, ◌<◌, ◌≤◌, ◌++◌, ◌∷◌, [], map, flat_map, zip, drop, length, slice_index, All, IfOk, OnOk};
ghost use Rattle.wrap_rows.specs.Normal.{clause_of};
ghost use Rattle.path_encoding.specs.Spots.{AreSpotsOf, Exist, block_var};
ghost use Rattle.path_encoding.specs.Ends as spec;
ghost use Rattle.path_encoding.specs.Resolved.{places, case_to, switch_to};

use crate::PathSpots;
use crate::exit::Leaving;
use crate::lits::{add_not_poison, is_off, is_on};
use crate::vars::{block_named, edge_to};
use ll_links::BlockId;
use ll_tree::Case;
use ll_verifier::Sound;
use mix_system::{Lit, System, Term};
use std::alloc::Global;
use wrap_rows::{ValueVars, add_lits, at_least, at_most};
use wx_base::NoMemory;

/// Adds the clauses of a switch, whose targets are its default and behind it those of its cases.
///
/// After want of memory some of the clauses may stand.
pub fn add_switch(
    alloc: Global,
    sound: &Sound,
    spots: &PathSpots,
    leaving: Leaving,
    targets: &[BlockId],
    cases: &[Case],
    vars: &[u32],
    into: &mut System,
) -> Result<(), NoMemory>
    requires spots { AreSpotsOf sound.now spots.now }
    requires known { Exist (length into.old.ranges) spots.now }
    requires at { leaving.at < length sound.now.flow.order }
    requires number { leaving.value.number < length into.old.ranges }
    requires mark { leaving.value.mark < length into.old.ranges }
    requires targets { length targets.now ≡ length cases.now + 1 }
    requires each { length cases.now ≤ length vars.now }
    requires vars { All (λ var. var < length into.old.ranges) vars.now }
    requires room { length into.old.clauses + length (switch_to sound.now spots.now leaving.at
        leaving.value (slice_index (places targets.now) 0) (drop 1 (places targets.now))
        cases.now vars.now) < 2 ^ 31 }
    ensures { OnOk result (into.new ≡ record into.old {
      clauses = into.old.clauses ++ map clause_of (switch_to sound.now spots.now leaving.at
          leaving.value (slice_index (places targets.now) 0) (drop 1 (places targets.now))
          cases.now vars.now);
    }) }
{
    let block = spots.blocks[leaving.at as usize];
    let first = block_named(targets, 0);
    let default = edge_to(sound, spots, leaving.at, first);
    let others = targets.split_at(1).1;
    add_not_poison(alloc, block, leaving.value, into)?;
    add_cases(alloc, sound, spots, leaving, others, cases, vars, into)?;
    let mine = vars.split_at(cases.len()).0;
    let lits = default_lits(alloc, block, mine, default)?;
    let clause = lits.as_slice();
    add_lits(alloc, into, clause)?;
    Ok(())
}

// The clauses of each case.
fn add_cases(
    alloc: Global,
    sound: &Sound,
    spots: &PathSpots,
    leaving: Leaving,
    targets: &[BlockId],
    cases: &[Case],
    vars: &[u32],
    into: &mut System,
) -> Result<(), NoMemory>
    requires spots { AreSpotsOf sound.now spots.now }
    requires known { Exist (length into.old.ranges) spots.now }
    requires at { leaving.at < length sound.now.flow.order }
    requires number { leaving.value.number < length into.old.ranges }
    requires targets { length targets.now ≡ length cases.now }
    requires each { length cases.now ≤ length vars.now }
    requires vars { All (λ var. var < length into.old.ranges) vars.now }
    requires room { length into.old.clauses + 4 * length cases.now < 2 ^ 31 }
    ensures { OnOk result (into.new ≡ record into.old {
      clauses = into.old.clauses ++ map clause_of (flat_map
          (case_to sound.now spots.now leaving.at leaving.value.number)
          (zip (zip cases.now (places targets.now)) vars.now));
    }) }
{
    for (item, case) in cases.iter().enumerate() {
        let target = targets[item];
        let var = vars[item];
        add_case_at(alloc, sound, spots, leaving, case, target, var, into)?;
    }
    Ok(())
}

fn add_case_at(
    alloc: Global,
    sound: &Sound,
    spots: &PathSpots,
    leaving: Leaving,
    case: &Case,
    target: BlockId,
    var: u32,
    into: &mut System,
) -> Result<(), NoMemory>
    requires spots { AreSpotsOf sound.now spots.now }
    requires known { Exist (length into.old.ranges) spots.now }
    requires at { leaving.at < length sound.now.flow.order }
    requires number { leaving.value.number < length into.old.ranges }
    requires var { var < length into.old.ranges }
    requires room { length into.old.clauses + 4 < 2 ^ 31 }
    ensures { OnOk result (into.new ≡ record into.old {
      clauses = into.old.clauses ++ map clause_of (case_to sound.now spots.now leaving.at
          leaving.value.number ((case.now, target.0), var));
    }) }
{
    let block = spots.blocks[leaving.at as usize];
    let edge = edge_to(sound, spots, leaving.at, target);
    let number = leaving.value.number;
    add_case(alloc, block, number, case.value, var, edge, into)
}

// The case's variable is 1 exactly where the number is this one, and then the edge is taken.
fn add_case(
    alloc: Global,
    block: u32,
    number: u32,
    value: u32,
    var: u32,
    edge: u32,
    into: &mut System,
) -> Result<(), NoMemory>
    requires block { block < length into.old.ranges }
    requires number { number < length into.old.ranges }
    requires var { var < length into.old.ranges }
    requires edge { edge < length into.old.ranges }
    requires room { length into.old.clauses + 4 < 2 ^ 31 }
    ensures { OnOk result (into.new ≡ record into.old {
      clauses = into.old.clauses ++ map clause_of (spec.case_clauses block number value var edge);
    }) }
{
    let term = Term::Var(number);
    let value = i128::from(value);
    add_lits(alloc, into, &[is_off(var), at_most(term, value)])?;
    add_lits(alloc, into, &[is_off(var), at_least(term, value)])?;
    let (below, above) = (at_most(term, value - 1), at_least(term, value + 1));
    add_lits(alloc, into, &[is_on(var), below, above])?;
    add_lits(alloc, into, &[is_off(block), is_off(var), is_on(edge)])
}

// Some case is 1, or the edge is taken to the default.
fn default_lits(alloc: Global, block: u32, vars: &[u32], edge: u32) -> Result<Vec<Lit>, NoMemory>
    ensures { IfOk result (λ lits. lits.items
        ≡ spec.is_off block ∷ (map spec.is_on vars.now ++ spec.is_on edge ∷ [])) }
{
    let mut lits = Vec::new(alloc);
    lits.push(is_off(block))?;
    for var in vars {
        lits.push(is_on(*var))?;
    }
    lits.push(is_on(edge))?;
    Ok(lits)
}
