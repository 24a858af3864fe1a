//! The greatest value of a row, by goals that are raised after each find.

ghost use Rattle.std.specs.Prelude.{OnOk};
ghost use Rattle.mixed_rows.specs.Run.{IsKnown};

use crate::calls::{look, put_goal};
use crate::run::Run;
use crate::shown::no_call;
use crate::systems::term_of;
use mix_system::{Lit, Part, Side, System, Term};
use mixed_solver::Mix;
use std::alloc::Global;
use wx_base::NoMemory;

/// How a climb ends.
#[derive(Clone, Copy, PartialEq, Eq)]
pub enum End {
    /// There is no point with more.
    Impossible,
    /// The budget is spent.
    Spent,
    /// No more may be asked for.
    Refused,
}

/// The greatest value that was found, and the end.
#[derive(Clone, Copy)]
pub struct Reached {
    pub best: Option<i128>,
    pub end: End,
}

// What one search of a climb comes to.
enum Search {
    /// A point, and more is asked for.
    Higher(i128),
    /// A point, and no more may be asked for.
    Highest(i128),
    /// No point with a value.
    Over(End),
}

/// `climb:ROW`: solves, and asks for more than what was found, until there is no more.
pub fn climb(alloc: Global, run: &mut Run<'_>, of: &str) -> Result<String, NoMemory>
    requires { IsKnown run.old }
    ensures { OnOk result (IsKnown run.new) }
{
    let Some(term) = term_of(of) else {
        return no_call(alloc);
    };
    let Reached { best, end } = reach(run, term)?;
    let end = end_text(end);
    match best {
        Some(best) => Ok(format!(in alloc; "best {best}, {end}")?),
        None => Ok(format!(in alloc; "none, {end}")?),
    }
}

pub fn end_text(end: End) -> &'static str {
    match end {
        End::Impossible => "then impossible",
        End::Spent => "then spent",
        End::Refused => "then no call",
    }
}

/// Solves, and asks for more than what was found, until there is no more.
pub fn reach(run: &mut Run<'_>, term: Term) -> Result<Reached, NoMemory>
    requires { IsKnown run.old }
    ensures { OnOk result (IsKnown run.new) }
{
    let mut best = None;
    for _ in 0..u64::MAX {
        match higher(run, term)? {
            Search::Higher(value) => best = Some(value),
            Search::Highest(value) => return Ok(ended(Some(value), End::Refused)),
            Search::Over(end) => return Ok(ended(best, end)),
        }
    }
    Ok(ended(best, End::Refused))
}

fn ended(best: Option<i128>, end: End) -> Reached {
    Reached { best, end }
}

fn higher(run: &mut Run<'_>, term: Term) -> Result<Search, NoMemory>
    requires { IsKnown run.old }
    ensures { OnOk result (IsKnown run.new) }
{
    match look(run)? {
        None => Ok(Search::Over(End::Refused)),
        Some(Mix::Found(point)) => above(run, term, point.items()),
        Some(Mix::Impossible) => Ok(Search::Over(End::Impossible)),
        Some(Mix::Spent) => Ok(Search::Over(End::Spent)),
    }
}

// Asks for more than what a point has.
fn above(run: &mut Run<'_>, term: Term, point: &[i128]) -> Result<Search, NoMemory>
    requires { IsKnown run.old }
    ensures { OnOk result (IsKnown run.new) }
{
    let Some(value) = value_of(run.mixed.level.system, term, point) else {
        return Ok(Search::Over(End::Refused));
    };
    let Some(bound) = value.checked_add(1) else {
        return Ok(Search::Highest(value));
    };
    let goal = Lit {
        term,
        side: Side::Ge,
        bound,
    };
    if put_goal(run, goal)? {
        Ok(Search::Higher(value))
    } else {
        Ok(Search::Highest(value))
    }
}

// What a term comes to at a point, `None` where there is no such term or it leaves 128 bits.
fn value_of(system: &System, term: Term, point: &[i128]) -> Option<i128> {
    match term {
        Term::Var(var) => Some(*point.get(var as usize)?),
        Term::Row(row) => {
            if row >= system.rows() {
                return None;
            }
            sum_of(system.row(row), point)
        }
    }
}

fn sum_of(parts: &[Part], point: &[i128]) -> Option<i128> {
    let mut sum: i128 = 0;
    for part in parts {
        let number = *point.get(part.var as usize)?;
        sum = sum.checked_add(part.coeff.checked_mul(number)?)?;
    }
    Some(sum)
}
