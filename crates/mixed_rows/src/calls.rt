//! The calls of a script.

ghost use Rattle.std.specs.Prelude.{◌≤◌, IsTrue, IfOk, OnOk};
ghost use Rattle.mix_system.specs.declared.tally.Tally.{Tally as Count};
ghost use Rattle.mix_system.specs.Calm.{IsCalm};
ghost use Rattle.mixed_solver.specs.declared.mixed.Mixed.{Mixed as Solver};
ghost use Rattle.mixed_solver.specs.Mixed.{IsMixed, IsAtGround, Answers};
ghost use Rattle.mixed_rows.specs.Run.{Knows, IsKnown};

use crate::goals::{may_cut, may_raise};
use crate::run::{Run, Standing};
use crate::shown::{found_text, no_call, said};
use crate::systems::{lit_of, number_of, put_clause};
use mix_system::{Lit, Side, System, Tally};
use mixed_solver::{Mix, Mixed};
use std::alloc::Global;
use wx_base::NoMemory;

/// `solve`
pub fn solve(alloc: Global, run: &mut Run<'_>) -> Result<String, NoMemory>
    requires { IsKnown run.old }
    ensures { OnOk result (IsKnown run.new) }
{
    match look(run)? {
        None => no_call(alloc),
        Some(Mix::Found(point)) => found_text(alloc, point.items()),
        Some(Mix::Impossible) => said(alloc, "impossible"),
        Some(Mix::Spent) => said(alloc, "spent"),
    }
}

/// Solves, where the steps haven't ended, and keeps what is known then.
pub fn look(run: &mut Run<'_>) -> Result<Option<Mix>, NoMemory>
    requires { IsKnown run.old }
    ensures { OnOk result (IsKnown run.new) }
{
    if !may_solve(run.standing) {
        return Ok(None);
    }
    let mix = run.mixed.solve(&mut run.tally)?;
    run.standing = standing_after(&mix);
    Ok(Some(mix))
}

fn may_solve(standing: Standing) -> bool
    ensures { (it : Solver) → IsTrue result → Knows standing it → IsMixed it }
{
    match standing {
        Standing::Ground => true,
        Standing::Spent => true,
        Standing::Ended => false,
    }
}

fn standing_after(mix: &Mix) -> Standing
    ensures { (it : Solver) (tally : Count) → Answers mix.now it tally → Knows result it }
{
    match mix {
        Mix::Found(_) => Standing::Ground,
        Mix::Impossible => Standing::Ended,
        Mix::Spent => Standing::Spent,
    }
}

/// `raise:LITERAL`
pub fn raise(alloc: Global, run: &mut Run<'_>, of: &str) -> Result<String, NoMemory>
    requires { IsKnown run.old }
    ensures { OnOk result (IsKnown run.new) }
{
    let Some(goal) = lit_of(of) else {
        return no_call(alloc);
    };
    if !put_goal(run, goal)? {
        return no_call(alloc);
    }
    said(alloc, "raised")
}

/// Raises the goal, or tells that it may not be raised so.
pub fn put_goal(run: &mut Run<'_>, goal: Lit) -> Result<bool, NoMemory>
    requires { IsKnown run.old }
    ensures { OnOk result (IsKnown run.new) }
{
    let Standing::Ground = run.standing else {
        return Ok(false);
    };
    if !may_raise(&run.mixed, goal) {
        return Ok(false);
    }
    run.mixed.raise(goal)?;
    Ok(true)
}

/// `cut:LITERAL`, which is taken as given.
pub fn cut(alloc: Global, run: &mut Run<'_>, of: &str) -> Result<String, NoMemory>
    requires { IsKnown run.old }
    ensures { OnOk result (IsKnown run.new) }
{
    let Some(lit) = lit_of(of) else {
        return no_call(alloc);
    };
    let Standing::Ground = run.standing else {
        return no_call(alloc);
    };
    let Some(number) = put_cut(&mut run.mixed, lit)? else {
        return no_call(alloc);
    };
    put_clause(&mut run.checked, &[lit])?;
    Ok(format!(in alloc; "cut {number}")?)
}

// Adds a cut, or tells that it may not be added.
fn put_cut(mixed: &mut Mixed<'_>, cut: Lit) -> Result<Option<u32>, NoMemory>
    requires { IsAtGround mixed.old }
    ensures { OnOk result (IsAtGround mixed.new) }
{
    if !may_cut(mixed, cut) {
        return Ok(None);
    }
    Ok(Some(mixed.add_cut(cut.term, cut.bound)?))
}

/// `close`: a level behind one whose steps have ended, with its cuts and the one that it has shown.
pub fn close(alloc: Global, run: &mut Run<'_>) -> Result<String, NoMemory>
    requires { IsKnown run.old }
    ensures { OnOk result (IsKnown run.new) }
{
    let Standing::Ended = run.standing else {
        return no_call(alloc);
    };
    let Some(cut) = shown_cut(run.mixed.level.goal) else {
        return no_call(alloc);
    };
    run.mixed = next_level(alloc, run.mixed.level.system, &run.mixed.level.cuts)?;
    run.standing = Standing::Ground;
    let Some(number) = put_cut(&mut run.mixed, cut)? else {
        return no_call(alloc);
    };
    put_clause(&mut run.checked, &[cut])?;
    Ok(format!(in alloc; "cut {number}")?)
}

// The cut that is shown where a goal can't be met.
fn shown_cut(goal: Option<Lit>) -> Option<Lit> {
    let goal = goal?;
    let Side::Ge = goal.side else {
        return None;
    };
    Some(Lit {
        term: goal.term,
        side: Side::Le,
        bound: goal.bound.checked_sub(1)?,
    })
}

/// A level with cuts and no goal.
pub fn next_level<'a>(
    alloc: Global,
    system: &'a System,
    cuts: &[Lit],
) -> Result<Mixed<'a>, NoMemory>
    requires { IsCalm system.now }
    ensures { IfOk result IsAtGround }
{
    let mut mixed = Mixed::new(alloc, system, None)?;
    for cut in cuts {
        put_cut(&mut mixed, *cut)?;
    }
    Ok(mixed)
}

/// `budget:BUDGET`: the tally goes on with a greater budget.
pub fn wider(alloc: Global, run: &mut Run<'_>, of: &str) -> Result<String, NoMemory>
    requires { IsKnown run.old }
    ensures { OnOk result (IsKnown run.new) }
{
    let budget = number_of(of);
    if budget < run.tally.budget {
        return no_call(alloc);
    }
    run.tally = widened(run.tally, budget);
    said(alloc, "wider")
}

fn widened(tally: Tally, budget: u64) -> Tally
    requires { tally.budget ≤ budget }
{
    Tally {
        decisions: tally.decisions,
        propagations: tally.propagations,
        conflicts: tally.conflicts,
        splits: tally.splits,
        checks: tally.checks,
        budget,
    }
}
