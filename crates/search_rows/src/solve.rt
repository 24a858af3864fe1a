//! A whole search by one call of a script.

ghost use Rattle.std.specs.Prelude.{OnOk};
ghost use Rattle.clause_search.specs.Learnt.{IsLearnt};
ghost use Rattle.search_rows.specs.Run.{IsKnown};

use crate::run::{Run, Standing};
use crate::shown::said;
use crate::steps::{has_place, put, spread, take};
use clause_search::{Learnt, Spread};
use mix_system::{Hints, Lit, Lits, Side, Term};
use std::alloc::Global;
use wx_base::NoMemory;

// How a whole search ends.
#[derive(Clone, Copy)]
enum End {
    Possible,
    Impossible,
    Spent,
}

/// `solve`, over variables of 0 or 1: decides each variable for 0 in order of number, until all have a value or none can.
pub fn solve(alloc: Global, run: &mut Run) -> Result<String, NoMemory>
    requires { IsKnown run.old }
    ensures { OnOk result (IsKnown run.new) }
{
    for _ in 0..u64::MAX {
        if let Some(end) = turn(alloc, run)? {
            return said(alloc, end_text(end));
        }
    }
    said(alloc, end_text(End::Spent))
}

fn end_text(end: End) -> &'static str {
    match end {
        End::Possible => "possible",
        End::Impossible => "impossible",
        End::Spent => "Spent",
    }
}

// A propagation, and a decision or what its conflict teaches.
fn turn(alloc: Global, run: &mut Run) -> Result<Option<End>, NoMemory>
    requires { IsKnown run.old }
    ensures { OnOk result (IsKnown run.new) }
{
    match spread(run)? {
        Spread::Quiet => decide_next(run),
        Spread::Conflict(_) => learn_back(alloc, run),
        Spread::Spent => Ok(Some(End::Spent)),
    }
}

fn learn_back(alloc: Global, run: &mut Run) -> Result<Option<End>, NoMemory>
    requires { IsKnown run.old }
    ensures { OnOk result (IsKnown run.new) }
{
    let Standing::Broken(at) = run.standing else {
        return Ok(None);
    };
    match run.search.analyse(alloc, at, &mut run.tally)? {
        Learnt::Clause { lits, hints, level } => go_back(run, &lits, &hints, level),
        Learnt::Top { hints: _ } => Ok(Some(End::Impossible)),
        Learnt::Spent => Ok(Some(End::Spent)),
    }
}

fn go_back(run: &mut Run, lits: &Lits, hints: &Hints, level: u32) -> Result<Option<End>, NoMemory>
    requires known { IsKnown run.old }
    requires learnt { IsLearnt run.old.search lits.now hints.now level }
    ensures { OnOk result (IsKnown run.new) }
{
    take(run, lits, hints, level)?;
    Ok(None)
}

fn decide_next(run: &mut Run) -> Result<Option<End>, NoMemory>
    requires { IsKnown run.old }
    ensures { OnOk result (IsKnown run.new) }
{
    let Some(lit) = next(run) else {
        return Ok(Some(End::Possible));
    };
    match put(run, &lit)? {
        Some(true) => Ok(None),
        _ => Ok(Some(End::Spent)),
    }
}

// The first variable that has no value yet, for 0.
fn next(run: &Run) -> Option<Lit>
    requires { IsKnown run.now }
{
    for var in 0..run.vars {
        let lit = Lit {
            term: Term::Var(var),
            side: Side::Le,
            bound: 0,
        };
        if is_open(run, &lit) {
            return Some(lit);
        }
    }
    None
}

fn is_open(run: &Run, lit: &Lit) -> bool
    requires { IsKnown run.now }
{
    if !has_place(run, lit) {
        return false;
    }
    if run.search.is_true(lit) {
        return false;
    }
    !run.search.is_false(lit)
}
