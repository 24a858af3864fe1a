//! A climb with each of many budgets.

ghost use Rattle.std.specs.Prelude.{OnOk};
ghost use Rattle.mixed_rows.specs.Run.{IsKnown};

use crate::calls::next_level;
use crate::checked::check;
use crate::climb::{End, reach};
use crate::run::{Run, Standing};
use crate::shown::no_call;
use crate::systems::{number_of, term_of};
use mix_system::{Tally, Term, Work};
use std::alloc::Global;
use wx_base::NoMemory;

/// `budgets:MOST:ROW`: climbs with each budget from 1 to MOST, on a new level with the same cuts and no
/// goal. An answer is told where it isn't the one before.
pub fn budgets(alloc: Global, run: &mut Run<'_>, of: &str) -> Result<String, NoMemory>
    requires { IsKnown run.old }
    ensures { OnOk result (IsKnown run.new) }
{
    let (most, row) = of.split_once(':').unwrap_or((of, ""));
    let Some(term) = term_of(row) else {
        return no_call(alloc);
    };
    let mut told = String::new(alloc);
    let mut last = String::new(alloc);
    for budget in 0..number_of(most) {
        let answer = tried(alloc, run, term, budget + 1)?;
        if answer != last {
            told.push_str(if told.is_empty() { "" } else { ", then " })?;
            told.push_str(answer.as_str())?;
            last = answer;
        }
    }
    Ok(told)
}

// The answer with one budget, and what the checker says of the steps.
fn tried(alloc: Global, run: &mut Run<'_>, term: Term, budget: u64) -> Result<String, NoMemory>
    requires { IsKnown run.old }
    ensures { OnOk result (IsKnown run.new) }
{
    run.mixed = next_level(alloc, run.mixed.level.system, &run.mixed.level.cuts)?;
    run.standing = Standing::Ground;
    run.tally = Tally::new(budget);
    let reached = reach(run, term)?;
    let checked = check(alloc, run)?;
    match (reached.best, reached.end) {
        (Some(best), End::Impossible) => Ok(format!(in alloc; "best {best}, {checked}")?),
        (None, End::Impossible) => Ok(format!(in alloc; "none, {checked}")?),
        (_, End::Spent) if !run.tally.tick(Work::Check) => Ok(format!(in alloc;
            "spent, {checked}"
        )?),
        _ => no_call(alloc),
    }
}
