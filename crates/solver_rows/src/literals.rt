use mix_system::{Lit, Lits, Side, Term};
use proof_text::{Line, LineRead, read};
use std::alloc::Global;
use wx_base::NoMemory;

// `literals`: whether they rise. `negations`: what says the opposite of each.
pub fn answer(alloc: Global, of: &str, call: &str) -> Result<String, NoMemory> {
    let lits = lits_of(alloc, call)?;
    if of == "negations" {
        return negations(alloc, lits.items());
    }
    Ok(match lits.items() {
        [first, second] if first < second => String::from_str(alloc, "rise")?,
        _ => String::from_str(alloc, "don't rise")?,
    })
}

// The bounds that proof_text reads aren't the least or the greatest number.
fn negations(alloc: Global, lits: &[Lit]) -> Result<String, NoMemory> {
    let mut line = String::new(alloc);
    for lit in lits {
        if i128::MIN < lit.bound && lit.bound < i128::MAX {
            push(alloc, &mut line, &lit.negation())?;
        }
    }
    Ok(line)
}

// The literals of a text, as a proof has them.
pub fn lits_of(alloc: Global, text: &str) -> Result<Lits, NoMemory> {
    match read(alloc, format!(in alloc; "theory {text}")?.as_bytes())? {
        LineRead::Fits(Line::Theory { clause }) => Ok(clause),
        _other => Ok(Lits::new(alloc)),
    }
}

// A literal behind a line, with a blank.
pub fn push(alloc: Global, line: &mut String, lit: &Lit) -> Result<(), NoMemory> {
    let side = match lit.side {
        Side::Le => "<=",
        Side::Ge => ">=",
    };
    let text = match lit.term {
        Term::Var(var) => format!(in alloc; " v{var}{side}{}", lit.bound)?,
        Term::Row(row) => format!(in alloc; " r{row}{side}{}", lit.bound)?,
    };
    line.push_str(text.as_str())?;
    Ok(())
}
