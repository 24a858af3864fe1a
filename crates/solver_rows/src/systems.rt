ghost use Rattle.std.specs.Prelude.{◌≡◌, ◌<◌, length, AllPairs, IsTrue, IfSome};
ghost use Rattle.mix_system.specs.System.{Exists, IsInner, IsRange, IsRow, IsClause};

use crate::literals::lits_of;
use mix_system::{Lit, Part, System, Term};
use std::alloc::Global;
use wx_base::NoMemory;

// A system of rows has few of everything.
const MOST: u32 = 10_000;

pub fn answer(
    alloc: Global,
    system: &mut System,
    of: &str,
    call: &str,
) -> Result<String, NoMemory> {
    match of {
        "var" => var(alloc, system, call),
        "row" => row(alloc, system, call),
        "clause" => clause(alloc, system, call),
        "shown" => shown(alloc, system),
        "holds" => holds(alloc, system, call),
        _ => {
            *system = System::new(alloc);
            Ok(String::from_str(alloc, "empty")?)
        }
    }
}

pub fn no_call(alloc: Global) -> Result<String, NoMemory> {
    Ok(String::from_str(alloc, "no call")?)
}

// `var LOW HIGH`
fn var(alloc: Global, system: &mut System, call: &str) -> Result<String, NoMemory> {
    let Some((low, high)) = range_of(call) else {
        return no_call(alloc);
    };
    if system.vars() > MOST {
        return no_call(alloc);
    }
    Ok(format!(in alloc; "v{}", system.add_var(low, high)?)?)
}

fn range_of(call: &str) -> Option<(i128, i128)>
    ensures { IfSome result IsRange }
{
    let (low, high) = call.split_once(' ')?;
    let (low, high) = (low.parse::<i128>().ok()?, high.parse::<i128>().ok()?);
    if i128::MIN < low && low <= high && high < i128::MAX {
        Some((low, high))
    } else {
        None
    }
}

// `row 2v0 -1v1`
fn row(alloc: Global, system: &mut System, call: &str) -> Result<String, NoMemory> {
    let parts = parts_of(alloc, call)?;
    if system.rows() > MOST || !is_row(system.vars(), &parts) {
        return no_call(alloc);
    }
    Ok(format!(in alloc; "r{}", system.add_row(&parts)?)?)
}

fn parts_of(alloc: Global, call: &str) -> Result<Vec<Part>, NoMemory> {
    let mut parts = Vec::new(alloc);
    for word in call.split_whitespace() {
        let (coeff, var) = word.split_once('v').unwrap_or((word, ""));
        if let (Ok(coeff), Ok(var)) = (coeff.parse::<i128>(), var.parse::<u32>()) {
            parts.push(Part { coeff, var })?;
        }
    }
    Ok(parts)
}

fn is_row(vars: u32, parts: &[Part]) -> bool
    ensures { IsTrue result → IsRow vars parts.now }
{
    parts.iter().all(|part| part.var < vars && part.coeff != 0) && are_rising(parts)
}

#[tactic(auto, using(crate::proofs::RiseLaws::rise_none, crate::proofs::RiseLaws::rise_more))]
fn are_rising(parts: &[Part]) -> bool
    ensures { IsTrue result → AllPairs (λ part later. part.var < later.var) parts.now }
{
    match parts {
        [] => true,
        [first, later @ ..] => {
            later.iter().all(|part| first.var < part.var) && are_rising(later)
        }
    }
}

// `clause v0>=1 r0<=-2`
fn clause(alloc: Global, system: &mut System, call: &str) -> Result<String, NoMemory> {
    let lits = lits_of(alloc, call)?;
    if system.clauses() > MOST || !is_clause(system.vars(), system.rows(), lits.items()) {
        return no_call(alloc);
    }
    Ok(format!(in alloc; "clause {}", system.add_clause(lits.items())?)?)
}

// Clauses here have at most two literals.
fn is_clause(vars: u32, rows: u32, lits: &[Lit]) -> bool
    ensures { IsTrue result → IsClause vars rows lits.now }
{
    match lits {
        [] => true,
        [one] => may_stand(vars, rows, one),
        [one, other] => {
            may_stand(vars, rows, one) && may_stand(vars, rows, other) && one.bound != other.bound
        }
        _ => false,
    }
}

fn may_stand(vars: u32, rows: u32, lit: &Lit) -> bool
    ensures { IsTrue result → Exists vars rows lit.now.term × IsInner lit.now.bound }
{
    exists(vars, rows, lit.term) && i128::MIN < lit.bound && lit.bound < i128::MAX
}

pub fn exists(vars: u32, rows: u32, term: Term) -> bool
    ensures { IsTrue result → Exists vars rows term }
{
    match term {
        Term::Var(var) => var < vars,
        Term::Row(row) => row < rows,
    }
}

// All variables with their ranges, all rows and all clauses.
fn shown(alloc: Global, system: &System) -> Result<String, NoMemory> {
    let mut line = String::new(alloc);
    for var in 0..system.vars() {
        line.push_str(format!(in alloc; "{:?} ", system.range(var))?.as_str())?;
    }
    for row in 0..system.rows() {
        line.push_str(format!(in alloc; "{:?} ", system.row(row))?.as_str())?;
    }
    for clause in 0..system.clauses() {
        line.push_str(format!(in alloc; "{:?} ", system.clause(clause))?.as_str())?;
    }
    Ok(line)
}

// `holds 5 3`: whether a point fits.
fn holds(alloc: Global, system: &System, call: &str) -> Result<String, NoMemory> {
    let point = numbers_of(alloc, call)?;
    if point.len() != system.vars() as usize {
        return no_call(alloc);
    }
    Ok(match system.holds(&point) {
        Ok(fits) => format!(in alloc; "{fits}")?,
        Err(excess) => format!(in alloc; "{excess}")?,
    })
}

pub fn numbers_of(alloc: Global, call: &str) -> Result<Vec<i128>, NoMemory> {
    let mut numbers = Vec::new(alloc);
    for word in call.split_whitespace() {
        if let Ok(number) = word.parse::<i128>() {
            numbers.push(number)?;
        }
    }
    Ok(numbers)
}
