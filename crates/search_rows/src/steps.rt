//! The calls of a script.

ghost use Rattle.std.specs.Prelude.{◌≤◌, length, IsTrue, OnOk};
ghost use Rattle.mix_system.specs.declared.tally.Tally.{Tally as Count};
ghost use Rattle.mix_system.specs.System.{Exists, IsInner, IsClause};
ghost use Rattle.clause_search.specs.Search.{Search as State};
ghost use Rattle.clause_search.specs.Answers.{Says};
ghost use Rattle.clause_search.specs.Learnt.{IsLearnt};
ghost use Rattle.search_rows.specs.Run.{IsKnown, Knows};

use crate::run::{Run, Standing};
use crate::shown::{lits_text, no_call, said};
use crate::system::{budget_of, is_clause, lit_of, lits_of, may_stand};
use clause_search::{Learnt, Spread};
use mix_system::{Hints, Lit, Lits, Tally};
use std::alloc::Global;
use wx_base::NoMemory;

/// `propagate`
pub fn propagate(alloc: Global, run: &mut Run) -> Result<String, NoMemory>
    requires { IsKnown run.old }
    ensures { OnOk result (IsKnown run.new) }
{
    let spread = spread(run)?;
    Ok(format!(in alloc; "{spread:?}")?)
}

/// Propagates, and keeps what was found.
pub fn spread(run: &mut Run) -> Result<Spread, NoMemory>
    requires { IsKnown run.old }
    ensures { OnOk result (IsKnown run.new) }
{
    let _levels = run.search.levels();
    let spread = run.search.propagate(&mut run.tally)?;
    run.standing = standing_after(spread);
    Ok(spread)
}

fn standing_after(spread: Spread) -> Standing
    ensures { (state : State) (tally : Count) → Says spread state tally → Knows result state }
{
    match spread {
        Spread::Quiet => Standing::Settled,
        Spread::Conflict(at) => Standing::Broken(at),
        Spread::Spent => Standing::Open,
    }
}

/// `decide:LITERAL`, behind a propagation that left no clause to ask for something.
pub fn decide(alloc: Global, run: &mut Run, of: &str) -> Result<String, NoMemory>
    requires { IsKnown run.old }
    ensures { OnOk result (IsKnown run.new) }
{
    let Some(lit) = lit_of(of) else {
        return no_call(alloc);
    };
    match put(run, &lit)? {
        None => no_call(alloc),
        Some(false) => said(alloc, "Spent"),
        Some(true) => said(alloc, "decided"),
    }
}

/// Decides a literal, and tells whether there was budget; or tells nothing where it may not be decided.
pub fn put(run: &mut Run, lit: &Lit) -> Result<Option<bool>, NoMemory>
    requires { IsKnown run.old }
    ensures { OnOk result (IsKnown run.new) }
{
    let Standing::Settled = run.standing else {
        return Ok(None);
    };
    if !has_place(run, lit) {
        return Ok(None);
    }
    if run.search.is_true(lit) {
        return Ok(None);
    }
    if run.search.is_false(lit) {
        return Ok(None);
    }
    let _levels = run.search.levels();
    if !run.search.decide(lit, &mut run.tally)? {
        return Ok(Some(false));
    }
    run.standing = Standing::Open;
    Ok(Some(true))
}

/// `ask:LITERAL`: whether it is true or false.
pub fn ask(alloc: Global, run: &Run, of: &str) -> Result<String, NoMemory>
    requires { IsKnown run.now }
{
    let Some(lit) = lit_of(of) else {
        return no_call(alloc);
    };
    if !has_place(run, &lit) {
        return no_call(alloc);
    }
    if run.search.is_true(&lit) {
        return said(alloc, "true");
    }
    if run.search.is_false(&lit) {
        return said(alloc, "false");
    }
    said(alloc, "open")
}

// Whether a literal may be put to the trail.
pub fn has_place(run: &Run, lit: &Lit) -> bool
    requires { IsKnown run.now }
    ensures { IsTrue result →
        Exists (length run.now.search.trail.ranges) run.now.search.trail.rows lit.now.term
        × IsInner lit.now.bound }
{
    may_stand(run.vars, run.rows, lit)
}

/// `back:LEVEL`
pub fn back_to(alloc: Global, run: &mut Run, of: &str) -> Result<String, NoMemory>
    requires { IsKnown run.old }
    ensures { OnOk result (IsKnown run.new) }
{
    let Ok(level) = of.parse::<u32>() else {
        return no_call(alloc);
    };
    if level as usize > run.search.levels().len() {
        return no_call(alloc);
    }
    run.search.back_to(level);
    run.standing = Standing::Open;
    said(alloc, "back")
}

/// `add:LITERALS`, at level 0.
pub fn add(alloc: Global, run: &mut Run, of: &str) -> Result<String, NoMemory>
    requires { IsKnown run.old }
    ensures { OnOk result (IsKnown run.new) }
{
    let lits = lits_of(alloc, of)?;
    if run.search.levels().len() > 0 {
        return no_call(alloc);
    }
    if !has_clause(run, &lits) {
        return no_call(alloc);
    }
    let number = run.search.add_clause(&lits)?;
    run.standing = Standing::Open;
    Ok(format!(in alloc; "clause {number}")?)
}

// Whether these literals are a clause over the variables and rows of the search.
fn has_clause(run: &Run, lits: &[Lit]) -> bool
    requires { IsKnown run.now }
    ensures { IsTrue result →
        IsClause (length run.now.search.trail.ranges) run.now.search.trail.rows lits.now }
{
    is_clause(run.vars, run.rows, lits)
}

/// `learn`, behind a propagation that found a false clause: the analysis, and then back to its
/// level with the learnt clause, which is added.
pub fn learn(alloc: Global, run: &mut Run) -> Result<String, NoMemory>
    requires { IsKnown run.old }
    ensures { OnOk result (IsKnown run.new) }
{
    let Standing::Broken(at) = run.standing else {
        return no_call(alloc);
    };
    match run.search.analyse(alloc, at, &mut run.tally)? {
        Learnt::Clause { lits, hints, level } => taken(alloc, run, &lits, &hints, level),
        Learnt::Top { hints } => Ok(format!(in alloc; "top by {:?}", hints.items())?),
        Learnt::Spent => said(alloc, "Spent"),
    }
}

fn taken(
    alloc: Global,
    run: &mut Run,
    lits: &Lits,
    hints: &Hints,
    level: u32,
) -> Result<String, NoMemory>
    requires known { IsKnown run.old }
    requires learnt { IsLearnt run.old.search lits.now hints.now level }
    ensures { OnOk result (IsKnown run.new) }
{
    let number = take(run, lits, hints, level)?;
    let text = lits_text(alloc, lits.items())?;
    Ok(format!(in alloc; "clause {number}{text} by {:?} on {level}", hints.items())?)
}

/// Goes back with what was learnt, and adds it.
pub fn take(run: &mut Run, lits: &Lits, hints: &Hints, level: u32) -> Result<u32, NoMemory>
    requires known { IsKnown run.old }
    requires learnt { IsLearnt run.old.search lits.now hints.now level }
    ensures { OnOk result (IsKnown run.new) }
{
    let _levels = run.search.levels();
    run.search.back_to(level);
    let number = run.search.add_clause(lits.items())?;
    run.standing = Standing::Open;
    let _hints = hints;
    Ok(number)
}

/// `budget:BUDGET`: the tally goes on with a greater budget.
pub fn raise(alloc: Global, run: &mut Run, of: &str) -> Result<String, NoMemory>
    requires { IsKnown run.old }
    ensures { OnOk result (IsKnown run.new) }
{
    let budget = budget_of(of);
    if budget < run.tally.budget {
        return no_call(alloc);
    }
    run.tally = raised(run.tally, budget);
    said(alloc, "raised")
}

fn raised(tally: Tally, budget: u64) -> Tally
    requires { tally.budget ≤ budget }
{
    Tally {
        decisions: tally.decisions,
        propagations: tally.propagations,
        conflicts: tally.conflicts,
        splits: tally.splits,
        checks: tally.checks,
        budget,
    }
}
