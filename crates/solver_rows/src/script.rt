use crate::literals::lits_of;
use crate::splits::{push_parts, solved, solved_kept};
use crate::systems::{exists, no_call};
use bounded_simplex::{Check, Mark, Simplex, TableauExcess};
use mix_system::{Farkas, Lit, System, Tally};
use std::alloc::Global;
use wx_base::NoMemory;
use wx_num::Excess;

// `check BUDGET ROOM WORD ..` over a simplex of the system, which lasts for the row. A literal is
// put to the bounds, `?` is a check, `back2` gives all but the first two changes back and `back`
// all, `made` shows the pivots of the last check, and `all` each column too: its bounds, and its
// value where there is a point. `solve` looks for a whole point, `kept` shows the tree that this
// leaves too, and `units` what was counted.
pub fn answer(alloc: Global, system: &System, call: &str) -> Result<String, NoMemory> {
    let (budget, rest) = call.split_once(' ').unwrap_or((call, ""));
    let (room, words) = rest.split_once(' ').unwrap_or((rest, ""));
    let (Ok(budget), Ok(room)) = (budget.parse::<u64>(), room.parse::<u32>()) else {
        return no_call(alloc);
    };
    let mut simplex = Simplex::new(alloc, system, room)?;
    let mut tally = Tally::new(budget);
    let mut told = String::new(alloc);
    for word in words.split_whitespace() {
        let text = step(alloc, &mut simplex, &mut tally, word)?;
        told.push_str(text.as_str())?;
    }
    Ok(told)
}

fn step(
    alloc: Global,
    simplex: &mut Simplex<'_>,
    tally: &mut Tally,
    word: &str,
) -> Result<String, NoMemory> {
    match word {
        "?" => checked(alloc, &simplex.check(alloc, tally)?),
        "all" => columns(alloc, simplex),
        "made" => Ok(format!(in alloc; "{} pivots; ", simplex.made)?),
        "solve" => solved(alloc, simplex, tally),
        "kept" => solved_kept(alloc, simplex, tally),
        "units" => Ok(format!(in alloc; "{} checks, {} splits; ", tally.checks, tally.splits)?),
        _ => {
            if let Some(changes) = word.strip_prefix("back") {
                return back(alloc, simplex, changes.parse::<u32>().unwrap_or(0));
            }
            put_all(simplex, lits_of(alloc, word)?.items());
            Ok(String::new(alloc))
        }
    }
}

fn back(alloc: Global, simplex: &mut Simplex<'_>, changes: u32) -> Result<String, NoMemory> {
    if simplex.mark().changes < changes {
        return no_call(alloc);
    }
    simplex.back_to(Mark { changes });
    Ok(String::from_str(alloc, "back; ")?)
}

fn checked(alloc: Global, check: &Check) -> Result<String, NoMemory> {
    Ok(match check {
        Check::Point => String::from_str(alloc, "point; ")?,
        Check::Refuted(farkas) => refuted(alloc, farkas)?,
        Check::Paused => String::from_str(alloc, "paused; ")?,
        Check::Spent => String::from_str(alloc, "spent; ")?,
        Check::Excess(excess) => exceeded(alloc, excess)?,
    })
}

// The place and the two numbers.
fn exceeded(alloc: Global, excess: &TableauExcess) -> Result<String, NoMemory> {
    let numbers = Excess {
        op: excess.op,
        x: excess.x,
        y: excess.y,
    };
    Ok(format!(in alloc; "{:?}, {}; ", excess.place, numbers)?)
}

// Each bound with its multiplier.
fn refuted(alloc: Global, farkas: &Farkas) -> Result<String, NoMemory> {
    let mut line = String::from_str(alloc, "refuted by")?;
    push_parts(alloc, &mut line, farkas)?;
    line.push_str("; ")?;
    Ok(line)
}

fn put_all(simplex: &mut Simplex<'_>, lits: &[Lit]) {
    for lit in lits {
        let (vars, rows) = (simplex.system().vars(), simplex.system().rows());
        if simplex.spare() > 0 && exists(vars, rows, lit.term) {
            simplex.assert_bound(lit);
        }
    }
}

fn columns(alloc: Global, simplex: &Simplex<'_>) -> Result<String, NoMemory> {
    let mut line = format!(in alloc; "{} pivots", simplex.made)?;
    for column in 0..simplex.bounds.columns() {
        let term = simplex.bounds.term_at(column);
        let (low, high) = (simplex.low(term), simplex.high(term));
        line.push_str(format!(in alloc; ", {low:?} {high:?}")?.as_str())?;
        if simplex.has_point {
            let value = simplex.value(alloc, term)?;
            line.push_str(format!(in alloc; " at {value:?}")?.as_str())?;
        }
    }
    line.push_str("; ")?;
    Ok(line)
}
