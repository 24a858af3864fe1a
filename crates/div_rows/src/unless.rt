// A row's sum is a number unless a literal is true.
ghost use Rattle.std.specs.Prelude.{◌≡◌, ◌+◌, ◌^◌, ◌<◌, ◌++◌, ◌⊎◌, ◌↔◌, ℕ, ℤ, List, map, length, All, Any, OnOk};
ghost use Rattle.mix_system.specs.declared.literal.Lit.{Lit as Literal};
ghost use Rattle.mix_system.specs.declared.literal.Term.TheVariants.{Row};
ghost use Rattle.mix_system.specs.declared.row.Part.{Part};
ghost use Rattle.mix_system.specs.System.{IsInner, Exists};
ghost use Rattle.mix_system.specs.Fits.{IsTrueAt, term_value};
ghost use Rattle.wrap_rows.specs.Normal.{clause_of};
ghost use Rattle.div_rows.specs.Unless.{equals_unless};

use mix_system::{Lit, System, Term};
use std::alloc::Global;
use wrap_rows::{add_lits, at_least, at_most};
use wx_base::NoMemory;

/// Adds the two clauses by which a row's sum is a number unless a literal is true.
///
/// After want of memory one of them may stand.
pub fn add_equation_unless(
    alloc: Global,
    into: &mut System,
    lit: Lit,
    row: u32,
    number: i128,
) -> Result<(), NoMemory>
    requires known { Exists (length into.old.ranges) (length into.old.rows) lit.term }
    requires inner { IsInner lit.bound }
    requires row { row < length into.old.rows }
    requires number { IsInner number }
    requires room { length into.old.clauses + 2 < 2 ^ 31 }
    ensures { OnOk result (into.new ≡ record into.old {
      clauses = into.old.clauses ++ map clause_of (equals_unless lit row number);
    }) }
{
    add_lits(alloc, into, &[lit, at_most(Term::Row(row), number)])?;
    add_lits(alloc, into, &[lit, at_least(Term::Row(row), number)])
}

/// The two clauses are true exactly where the literal is, or the row's sum is the number.
pub fn what_an_equation_with_an_exception_says()
    ensures { (rows : List (List Part)) (point : List ℤ) (lit : Literal) (row : ℕ) (number : ℤ)
        → All (Any (IsTrueAt rows point)) (equals_unless lit row number)
        ↔ (IsTrueAt rows point lit ⊎ (term_value rows point (Row row) ≡ number)) }
{}
