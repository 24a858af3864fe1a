//! What one bound says of another, and the bounds that hold without a trail.

ghost use Rattle.std.specs.Prelude.{◌≡◌, ◌↔◌, ◌<◌, [], ◌∷◌, ◌++◌, length, IsTrue, IfOk, OnOk};
ghost use Rattle.mix_system.specs.System.{Exists};
ghost use Rattle.mix_system.specs.Bounds.{Entails, IsIn, range_bounds, range_end, unit_bounds};
ghost use Rattle.level_steps.specs.Level.{box_of};
ghost use Rattle.level_search.specs.Kept.{level_of, IsKept};

use crate::LevelSearch;
use mix_system::{Lit, Side, System, Term};
use std::alloc::Global;
use wx_base::NoMemory;

/// Whether a bound says at least what a literal says.
pub(crate) fn entails(bound: Lit, lit: Lit) -> bool
    ensures { IsTrue result ↔ Entails bound lit }
{
    if bound.term != lit.term {
        return false;
    }
    match (bound.side, lit.side) {
        (Side::Le, Side::Le) => bound.bound <= lit.bound,
        (Side::Ge, Side::Ge) => lit.bound <= bound.bound,
        _ => false,
    }
}

/// The literals of the clauses that have one literal.
pub(crate) fn singles_of(alloc: Global, system: &System) -> Result<Vec<Lit>, NoMemory>
    ensures { IfOk result (λ singles. singles.items ≡ unit_bounds system.now.clauses) }
{
    let mut singles = Vec::new(alloc);
    for at in 0..system.clauses() {
        push_single(&mut singles, system.clause(at))?;
    }
    Ok(singles)
}

/// Adds the literal of a clause that has no other.
pub(crate) fn push_single(singles: &mut Vec<Lit>, clause: &[Lit]) -> Result<(), NoMemory>
    ensures { OnOk result (singles.new.items ≡ singles.old.items ++ unit_bounds (clause.now ∷ [])) }
{
    if let [only] = clause {
        singles.push(*only)?;
    }
    Ok(())
}

/// Whether the range of a literal's variable says it.
pub(crate) fn is_in_range(system: &System, lit: Lit) -> bool
    requires { Exists (length system.now.ranges) (length system.now.rows) lit.term }
    ensures { IsTrue result ↔ IsIn (range_bounds system.now.ranges) lit }
{
    let Term::Var(var) = lit.term else {
        return false;
    };
    entails(end_of(system.range(var), lit), lit)
}

// The bound that a range gives on a literal's term and side.
fn end_of(range: (i128, i128), lit: Lit) -> Lit
    ensures { result ≡ record
        { term = lit.term; side = lit.side; bound = range_end lit.side range } }
{
    let (low, high) = range;
    match lit.side {
        Side::Le => Lit { bound: high, ..lit },
        Side::Ge => Lit { bound: low, ..lit },
    }
}

impl LevelSearch<'_> {
    /// Whether the level's bounds say a literal: those of the ranges, of the goal, and of the
    /// clauses of one literal. It takes no memory.
    pub fn says(&self, lit: Lit) -> bool
        requires kept { IsKept self.now }
        requires term { Exists (length self.now.system.now.ranges)
            (length self.now.system.now.rows) lit.term }
        ensures { IsTrue result ↔ IsIn (box_of (level_of self.now) self.now.steps.items) lit }
    {
        if is_in_range(self.system, lit) {
            return true;
        }
        any_entails(&self.singles, lit)
    }
}

// Whether some bound says a literal.
fn any_entails(bounds: &[Lit], lit: Lit) -> bool
    ensures { IsTrue result ↔ IsIn bounds.now lit }
{
    bounds.iter().any(|bound| entails(*bound, lit))
}
