//! Systems of rows, and their literals.

ghost use Rattle.std.specs.Prelude.{◌≢◌, AllPairs, IsTrue, IfSome};
ghost use Rattle.mix_system.specs.System.{Exists, IsInner, IsRange, IsClause};

use mix_system::{Lit, Side, System, Term};
use std::alloc::Global;
use wx_base::NoMemory;

// A system of rows has few of everything.
const MOST: u32 = 1_000_000;

/// Adds a variable for each word `LOW:HIGH`, and a row without a part for each word `row`.
pub fn add_terms(system: &mut System, words: &str) -> Result<(), NoMemory> {
    for word in words.split_whitespace() {
        if system.vars() > MOST || system.rows() > MOST {
            continue;
        }
        if let Some((low, high)) = range_of(word) {
            system.add_var(low, high)?;
        } else {
            system.add_row(&[])?;
        }
    }
    Ok(())
}

fn range_of(word: &str) -> Option<(i128, i128)>
    ensures { IfSome result IsRange }
{
    let (low, high) = word.split_once(':')?;
    let (low, high) = (low.parse::<i128>().ok()?, high.parse::<i128>().ok()?);
    if i128::MIN < low && low <= high && high < i128::MAX {
        Some((low, high))
    } else {
        None
    }
}

/// Adds a clause for each word. `false` is the clause without a literal.
pub fn add_clauses(alloc: Global, system: &mut System, words: &str) -> Result<(), NoMemory> {
    for word in words.split_whitespace() {
        let lits = lits_of(alloc, word)?;
        if system.clauses() <= MOST && is_clause(system.vars(), system.rows(), &lits) {
            system.add_clause(&lits)?;
        }
    }
    Ok(())
}

/// Literals such as `v0>=1,r0<=-2`. What can't be read is left out.
pub fn lits_of(alloc: Global, text: &str) -> Result<Vec<Lit>, NoMemory> {
    let mut lits = Vec::new(alloc);
    for word in text.split(',') {
        if let Some(lit) = lit_of(word) {
            lits.push(lit)?;
        }
    }
    Ok(lits)
}

/// The literal that a word stands for.
pub fn lit_of(word: &str) -> Option<Lit> {
    let (term, side, bound) = match word.split_once("<=") {
        Some((term, bound)) => (term, Side::Le, bound),
        None => {
            let (term, bound) = word.split_once(">=")?;
            (term, Side::Ge, bound)
        }
    };
    Some(Lit {
        term: term_of(term)?,
        side,
        bound: bound.parse::<i128>().ok()?,
    })
}

fn term_of(word: &str) -> Option<Term> {
    match word.strip_prefix('v') {
        Some(var) => Some(Term::Var(var.parse::<u32>().ok()?)),
        None => Some(Term::Row(word.strip_prefix('r')?.parse::<u32>().ok()?)),
    }
}

/// The number that a word stands for.
pub fn budget_of(word: &str) -> u64 {
    word.trim().parse::<u64>().unwrap_or(0)
}

/// Whether these literals are a clause.
pub fn is_clause(vars: u32, rows: u32, lits: &[Lit]) -> bool
    ensures { IsTrue result → IsClause vars rows lits.now }
{
    lits.iter().all(|lit| may_stand(vars, rows, lit)) && are_different(lits)
}

#[tactic(auto, using(crate::proofs::DifferLaws::differ_none, crate::proofs::DifferLaws::differ_more))]
fn are_different(lits: &[Lit]) -> bool
    ensures { IsTrue result → AllPairs (λ lit later. lit ≢ later) lits.now }
{
    match lits {
        [] => true,
        [lit, later @ ..] => later.iter().all(|other| lit != other) && are_different(later),
    }
}

/// Whether a literal may stand in a clause.
pub fn may_stand(vars: u32, rows: u32, lit: &Lit) -> bool
    ensures { IsTrue result → Exists vars rows lit.now.term × IsInner lit.now.bound }
{
    let exists = match lit.term {
        Term::Var(var) => var < vars,
        Term::Row(row) => row < rows,
    };
    exists && i128::MIN < lit.bound && lit.bound < i128::MAX
}
