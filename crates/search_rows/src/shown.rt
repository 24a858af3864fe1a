//! What is told of a search.

use crate::run::Run;
use mix_system::{Lit, Side, Term};
use std::alloc::Global;
use wx_base::NoMemory;

pub fn said(alloc: Global, text: &str) -> Result<String, NoMemory> {
    Ok(String::from_str(alloc, text)?)
}

pub fn no_call(alloc: Global) -> Result<String, NoMemory> {
    said(alloc, "no call")
}

/// The clauses, the counts, the trail and the places at which its levels begin.
pub fn state_text(alloc: Global, run: &Run) -> Result<String, NoMemory> {
    let (clauses, tally) = (run.search.clauses(), &run.tally);
    let counts = [tally.decisions, tally.propagations, tally.conflicts];
    let trail = lits_text(alloc, run.search.trail())?;
    let levels = run.search.levels();
    Ok(format!(in alloc; "{clauses} clauses, counts {counts:?}, trail{trail} with {levels:?}")?)
}

/// Literals, each with a blank before it.
pub fn lits_text(alloc: Global, lits: &[Lit]) -> Result<String, NoMemory> {
    let mut line = String::new(alloc);
    for lit in lits {
        line.push_str(lit_text(alloc, lit)?.as_str())?;
    }
    Ok(line)
}

fn lit_text(alloc: Global, lit: &Lit) -> Result<String, NoMemory> {
    let side = match lit.side {
        Side::Le => "<=",
        Side::Ge => ">=",
    };
    Ok(match lit.term {
        Term::Var(var) => format!(in alloc; " v{var}{side}{}", lit.bound)?,
        Term::Row(row) => format!(in alloc; " r{row}{side}{}", lit.bound)?,
    })
}
