ghost use Rattle.std.specs.Prelude.{◌≡◌, ◌+◌, ◌^◌, ◌<◌, ◌++◌, ◌∷◌, [], length, OnOk};
ghost use Rattle.wrap_rows.specs.Normal.{clause_of};
ghost use Rattle.path_encoding.specs.Ends as spec;

use mix_system::{Lit, System, Term};
use std::alloc::Global;
use wrap_rows::{ValueVars, add_lits, at_least, at_most};
use wx_base::NoMemory;

/// The variable is 0.
pub fn is_off(var: u32) -> Lit
    ensures { result ≡ spec.is_off var }
{
    at_most(Term::Var(var), 0)
}

/// The variable is 1.
pub fn is_on(var: u32) -> Lit
    ensures { result ≡ spec.is_on var }
{
    at_least(Term::Var(var), 1)
}

/// Adds the clause by which the value isn't poison where the block is visited.
///
/// Where memory is wanting the system stands as before.
pub fn add_not_poison(
    alloc: Global,
    block: u32,
    value: ValueVars,
    into: &mut System,
) -> Result<(), NoMemory>
    requires block { block < length into.old.ranges }
    requires mark { value.mark < length into.old.ranges }
    requires room { length into.old.clauses + 1 < 2 ^ 31 }
    ensures { OnOk result (into.new ≡ record into.old {
      clauses = into.old.clauses ++ clause_of (spec.not_poison block value) ∷ [];
    }) }
{
    add_lits(alloc, into, &[is_off(block), is_off(value.mark)])
}
