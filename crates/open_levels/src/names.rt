ghost use Rattle.std.specs.Prelude.{◌↔◌, length, IsTrue, All};
ghost use Rattle.mix_system.specs.System.{Exists};
ghost use Rattle.proof_term.specs.Steps.{NamesTerm};

use mix_system::{Lit, System, Term};

/// Whether a system has such a variable or row.
pub fn has_term(system: &System, term: Term) -> bool
    ensures { IsTrue result ↔ Exists (length system.now.ranges) (length system.now.rows) term }
{
    match term {
        Term::Var(var) => var < system.vars(),
        Term::Row(row) => row < system.rows(),
    }
}

/// Whether a system has the terms of all literals.
pub fn names_terms(system: &System, lits: &[Lit]) -> bool
    ensures { IsTrue result ↔ All (NamesTerm system.now) lits.now }
{
    for lit in lits {
        if !has_term(system, lit.term) {
            return false;
        }
    }
    true
}
