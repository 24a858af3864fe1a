//! What is told of a piece and of a system.

use ir_pieces::IrPiece;
use mix_system::{Lit, Part, Side, System, Term};
use std::alloc::Global;
use wx_base::NoMemory;

pub fn said(alloc: Global, text: &str) -> Result<String, NoMemory> {
    Ok(String::from_str(alloc, text)?)
}

pub fn piece_text(alloc: Global, piece: &IrPiece) -> Result<String, NoMemory> {
    Ok(format!(in alloc; "{piece:?}")?)
}

/// The ranges from a variable on, then the rows, then the clauses.
pub fn system_text(alloc: Global, system: &System, first: u32) -> Result<String, NoMemory> {
    let mut line = String::new(alloc);
    for var in first..system.vars() {
        let (low, high) = system.range(var);
        line.push_str(format!(in alloc; "v{var} {low}..{high}, ")?.as_str())?;
    }
    for row in 0..system.rows() {
        line.push_str(row_text(alloc, row, system.row(row))?.as_str())?;
    }
    for clause in 0..system.clauses() {
        line.push_str(clause_text(alloc, system.clause(clause))?.as_str())?;
    }
    Ok(line)
}

fn row_text(alloc: Global, row: u32, parts: &[Part]) -> Result<String, NoMemory> {
    let mut line = format!(in alloc; "r{row}")?;
    for part in parts {
        let (coeff, var) = (part.coeff, part.var);
        line.push_str(format!(in alloc; " {coeff}v{var}")?.as_str())?;
    }
    line.push_str(", ")?;
    Ok(line)
}

fn clause_text(alloc: Global, lits: &[Lit]) -> Result<String, NoMemory> {
    let mut line = String::new(alloc);
    for lit in lits {
        line.push_str(lit_text(alloc, lit)?.as_str())?;
    }
    line.push_str("; ")?;
    Ok(line)
}

fn lit_text(alloc: Global, lit: &Lit) -> Result<String, NoMemory> {
    let side = match lit.side {
        Side::Le => "<=",
        Side::Ge => ">=",
    };
    Ok(match lit.term {
        Term::Var(var) => format!(in alloc; " v{var}{side}{}", lit.bound)?,
        Term::Row(row) => format!(in alloc; " r{row}{side}{}", lit.bound)?,
    })
}
