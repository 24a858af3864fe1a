//! Scripts of calls, and what is known of a solver between two calls.

ghost use Rattle.std.specs.Prelude.{IfSome, IfOk, OnOk};
ghost use Rattle.mix_system.specs.Calm.{IsCalm};
ghost use Rattle.level_search.specs.Kept.{IsGoal};
ghost use Rattle.mixed_rows.specs.Run.{IsKnown};

use crate::budgets::budgets;
use crate::calls::{close, cut, raise, solve, wider};
use crate::calm::is_calm;
use crate::checked::{check, text};
use crate::climb::climb;
use crate::goals::is_goal;
use crate::shown::{counts_text, no_call, steps_text};
use mix_system::{Lit, System, Tally};
use mixed_solver::Mixed;
use std::alloc::Global;
use wx_base::NoMemory;

/// How the last call has left a solver.
#[derive(Clone, Copy)]
pub enum Standing {
    /// At level 0.
    Ground,
    /// Somewhere, with its budget spent.
    Spent,
    /// With steps that have ended.
    Ended,
}

/// A solver of a script, with its tally.
#[derive(Drop)]
pub struct Run<'a> {
    pub mixed: Mixed<'a>,
    pub tally: Tally,
    pub standing: Standing,
    /// The system and behind its clauses one for each cut, over which steps are checked.
    pub checked: System,
}

/// What the calls of a script give, over a system with a goal or none.
pub fn told(
    alloc: Global,
    system: &System,
    checked: System,
    goal: Option<Lit>,
    budget: u64,
    calls: &str,
) -> Result<String, NoMemory> {
    if !is_calm(system) {
        return no_call(alloc);
    }
    if !is_goal(system, goal) {
        return no_call(alloc);
    }
    let mut told = String::new(alloc);
    let mut run = begun(alloc, system, checked, goal, budget)?;
    for call in calls.split_whitespace() {
        let text = step(alloc, &mut run, call)?;
        told.push_str(if told.is_empty() { "" } else { "; " })?;
        told.push_str(text.as_str())?;
    }
    Ok(told)
}

/// A solver on which nothing was called yet.
pub fn begun<'a>(
    alloc: Global,
    system: &'a System,
    checked: System,
    goal: Option<Lit>,
    budget: u64,
) -> Result<Run<'a>, NoMemory>
    requires calm { IsCalm system.now }
    requires goal { IfSome goal (IsGoal system.now) }
    ensures { IfOk result IsKnown }
{
    Ok(Run {
        mixed: Mixed::new(alloc, system, goal)?,
        tally: Tally::new(budget),
        standing: Standing::Ground,
        checked,
    })
}

fn step(alloc: Global, run: &mut Run<'_>, call: &str) -> Result<String, NoMemory>
    requires { IsKnown run.old }
    ensures { OnOk result (IsKnown run.new) }
{
    let (word, of) = call.split_once(':').unwrap_or((call, ""));
    match word {
        "solve" => solve(alloc, run),
        "raise" => raise(alloc, run, of),
        "climb" => climb(alloc, run, of),
        "cut" => cut(alloc, run, of),
        "close" => close(alloc, run),
        "budget" => wider(alloc, run, of),
        "budgets" => budgets(alloc, run, of),
        "steps" => steps_text(alloc, run.mixed.steps()),
        "text" => text(alloc, run),
        "check" => check(alloc, run),
        "counts" => counts_text(alloc, &run.tally),
        _ => no_call(alloc),
    }
}
