//! Systems of rows, and their literals.

ghost use Rattle.std.specs.Prelude.{◌≢◌, ◌<◌, length, AllPairs, IsTrue, IfSome};
ghost use Rattle.mix_system.specs.System.{Exists, IsInner, IsRange, IsRow, IsClause};

use mix_system::{Lit, Part, Side, System, Term};
use std::alloc::Global;
use wx_base::NoMemory;

// A system of rows has few of everything.
const MOST: u32 = 1_000_000;

/// The system of some words: `LOW:HIGH` for each range, `2v0,-1v1` for each row, `v0>=1,r0<=4` for each
/// clause. `0` is the row without a part, `false` the clause without a literal.
pub fn made(alloc: Global, ranges: &str, rows: &str, clauses: &str) -> Result<System, NoMemory> {
    let mut system = System::new(alloc);
    add_vars(&mut system, ranges)?;
    add_rows(alloc, &mut system, rows)?;
    add_clauses(alloc, &mut system, clauses)?;
    Ok(system)
}

fn add_vars(system: &mut System, words: &str) -> Result<(), NoMemory> {
    for word in words.split_whitespace() {
        if let Some((low, high)) = range_of(word) {
            if system.vars() <= MOST {
                system.add_var(low, high)?;
            }
        }
    }
    Ok(())
}

fn range_of(word: &str) -> Option<(i128, i128)>
    ensures { IfSome result IsRange }
{
    let (low, high) = word.split_once(':')?;
    let (low, high) = (low.parse::<i128>().ok()?, high.parse::<i128>().ok()?);
    if i128::MIN < low && low <= high && high < i128::MAX {
        Some((low, high))
    } else {
        None
    }
}

fn add_rows(alloc: Global, system: &mut System, words: &str) -> Result<(), NoMemory> {
    for word in words.split_whitespace() {
        let parts = parts_of(alloc, word)?;
        if system.rows() <= MOST && is_row(system.vars(), &parts) {
            system.add_row(&parts)?;
        }
    }
    Ok(())
}

fn parts_of(alloc: Global, word: &str) -> Result<Vec<Part>, NoMemory> {
    let mut parts = Vec::new(alloc);
    for piece in word.split(',') {
        let (coeff, var) = piece.split_once('v').unwrap_or((piece, ""));
        if let (Ok(coeff), Ok(var)) = (coeff.parse::<i128>(), var.parse::<u32>()) {
            parts.push(Part { coeff, var })?;
        }
    }
    Ok(parts)
}

fn is_row(vars: u32, parts: &[Part]) -> bool
    ensures { IsTrue result → IsRow vars parts.now }
{
    parts.iter().all(|part| part.var < vars && part.coeff != 0) && are_rising(parts)
}

#[tactic(auto, using(crate::proofs::RiseLaws::rise_none, crate::proofs::RiseLaws::rise_more))]
fn are_rising(parts: &[Part]) -> bool
    ensures { IsTrue result → AllPairs (λ part later. part.var < later.var) parts.now }
{
    match parts {
        [] => true,
        [first, later @ ..] => {
            later.iter().all(|part| first.var < part.var) && are_rising(later)
        }
    }
}

fn add_clauses(alloc: Global, system: &mut System, words: &str) -> Result<(), NoMemory> {
    for word in words.split_whitespace() {
        let lits = lits_of(alloc, word)?;
        put_clause(system, &lits)?;
    }
    Ok(())
}

/// Adds a clause, if these literals are one.
pub fn put_clause(system: &mut System, lits: &[Lit]) -> Result<(), NoMemory> {
    if system.clauses() <= MOST && is_clause(system.vars(), system.rows(), lits) {
        system.add_clause(lits)?;
    }
    Ok(())
}

// Literals such as `v0>=1,r0<=-2`. What can't be read is left out.
fn lits_of(alloc: Global, text: &str) -> Result<Vec<Lit>, NoMemory> {
    let mut lits = Vec::new(alloc);
    for word in text.split(',') {
        if let Some(lit) = lit_of(word) {
            lits.push(lit)?;
        }
    }
    Ok(lits)
}

/// The literal that a word stands for.
pub fn lit_of(word: &str) -> Option<Lit> {
    let (term, side, bound) = match word.split_once("<=") {
        Some((term, bound)) => (term, Side::Le, bound),
        None => {
            let (term, bound) = word.split_once(">=")?;
            (term, Side::Ge, bound)
        }
    };
    Some(Lit {
        term: term_of(term)?,
        side,
        bound: bound.parse::<i128>().ok()?,
    })
}

/// The term that a word stands for.
pub fn term_of(word: &str) -> Option<Term> {
    match word.strip_prefix('v') {
        Some(var) => Some(Term::Var(var.parse::<u32>().ok()?)),
        None => Some(Term::Row(word.strip_prefix('r')?.parse::<u32>().ok()?)),
    }
}

/// The number that a word stands for.
pub fn number_of(word: &str) -> u64 {
    word.trim().parse::<u64>().unwrap_or(0)
}

fn is_clause(vars: u32, rows: u32, lits: &[Lit]) -> bool
    ensures { IsTrue result → IsClause vars rows lits.now }
{
    lits.iter().all(|lit| may_stand(vars, rows, lit)) && are_different(lits)
}

#[tactic(auto, using(crate::proofs::DifferLaws::differ_none, crate::proofs::DifferLaws::differ_more))]
fn are_different(lits: &[Lit]) -> bool
    ensures { IsTrue result → AllPairs (λ lit later. lit ≢ later) lits.now }
{
    match lits {
        [] => true,
        [lit, later @ ..] => later.iter().all(|other| lit != other) && are_different(later),
    }
}

// Whether a literal may stand in a clause.
fn may_stand(vars: u32, rows: u32, lit: &Lit) -> bool
    ensures { IsTrue result → Exists vars rows lit.now.term × IsInner lit.now.bound }
{
    exists(vars, rows, lit.term) && i128::MIN < lit.bound && lit.bound < i128::MAX
}

/// Whether there is such a term.
pub fn exists(vars: u32, rows: u32, term: Term) -> bool
    ensures { IsTrue result → Exists vars rows term }
{
    match term {
        Term::Var(var) => var < vars,
        Term::Row(row) => row < rows,
    }
}
