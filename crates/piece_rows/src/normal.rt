//! The normal form of a row and of a clause.

ghost use Rattle.std.specs.Prelude.{◌≡◌, [], length};

use crate::laid::base;
use crate::shown::system_text;
use mix_system::{Lit, Part, Side, System, Term};
use std::alloc::Global;
use wrap_rows::{add_lits, add_sum};
use wx_base::NoMemory;

/// `normal`: a row whose variables come twice, out of order and as zero, and a clause with literals that come twice.
pub fn normal_row(alloc: Global) -> Result<String, NoMemory> {
    let mut system = base(alloc)?;
    add_row(alloc, &mut system)?;
    system_text(alloc, &system, 8)
}

// Adds the row and the clause.
fn add_row(alloc: Global, into: &mut System) -> Result<(), NoMemory>
    requires vars { length into.old.ranges ≡ 8 }
    requires rows { into.old.rows ≡ [] }
    requires clauses { into.old.clauses ≡ [] }
{
    let parts = [
        Part { coeff: 2, var: 3 },
        Part { coeff: 1, var: 1 },
        Part { coeff: -2, var: 3 },
        Part { coeff: 5, var: 0 },
        Part { coeff: 4, var: 1 },
        Part { coeff: 0, var: 2 },
    ];
    add_sum(alloc, into, &parts)?;
    let lits = [
        lit(Term::Var(1), Side::Ge, 1),
        lit(Term::Row(0), Side::Ge, 1),
        lit(Term::Var(1), Side::Ge, 1),
        lit(Term::Var(1), Side::Le, 1),
        lit(Term::Var(1), Side::Ge, 2),
        lit(Term::Row(0), Side::Ge, 1),
    ];
    add_lits(alloc, into, &lits)
}

fn lit(term: Term, side: Side, bound: i128) -> Lit
    ensures { result ≡ record { term = term; side = side; bound = bound } }
{
    Lit { term, side, bound }
}
