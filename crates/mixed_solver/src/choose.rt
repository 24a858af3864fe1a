ghost use Rattle.std.specs.Prelude.{◌≡◌, ◌⊎◌, ◌↔◌, ◌≤◌, length, IfOk, MatchOption, IsTrue, All, Contains};
ghost use Rattle.mix_system.specs.Lit.{negation};
ghost use Rattle.mix_system.specs.System.{IsInner, Exists};
ghost use Rattle.mix_system.specs.Bounds.{IsIn, IsFalseIn};
ghost use Rattle.bound_trail.specs.Trail.{box};
ghost use Rattle.clause_search.specs.Settled.{HasTrue};
ghost use Rattle.mixed_solver.specs.Mixed.{IsMixed};
ghost use Rattle.mixed_solver.specs.Turns.{Chooses, IsQuiet};

use crate::Mixed;
use mix_system::{Lit, Side};
use std::alloc::Global;
use wx_base::NoMemory;

impl Mixed<'_> {
    /// A literal of the first clause of the system without a true literal, on the side of the
    /// simplex's value, or nothing where each has one.
    pub(crate) fn choice(&self, alloc: Global) -> Result<Option<Lit>, NoMemory>
        requires mixed { IsMixed self.now }
        requires quiet { IsQuiet self.now }
        ensures { IfOk result (Chooses self.now) }
    {
        let system = self.level.system;
        for at in 0..system.clauses() {
            let clause = system.clause(at);
            if self.has_true(clause) {
                continue;
            }
            if let Some(lit) = self.first_open(clause) {
                return Ok(Some(self.towards_value(alloc, lit)?));
            }
        }
        Ok(None)
    }

    // Whether some literal is true.
    fn has_true(&self, clause: &[Lit]) -> bool
        requires { All (λ lit. Exists (length self.now.level.search.trail.ranges)
            self.now.level.search.trail.rows lit.term) clause.now }
        ensures { IsTrue result ↔ HasTrue (box self.now.level.search.trail) clause.now }
    {
        clause.iter().any(|lit| self.level.search.is_true(lit))
    }

    // The first literal that isn't false.
    fn first_open(&self, clause: &[Lit]) -> Option<Lit>
        requires { All (λ lit. Exists (length self.now.level.search.trail.ranges)
            self.now.level.search.trail.rows lit.term) clause.now }
        ensures { MatchOption result
            (All (IsFalseIn (box self.now.level.search.trail)) clause.now)
            (λ lit. Contains clause.now lit
            × ¬ IsFalseIn (box self.now.level.search.trail) lit) }
    {
        for lit in clause {
            if !self.level.search.is_false(lit) {
                return Some(*lit);
            }
        }
        None
    }

    // The literal or its negation, whichever the simplex's point keeps.
    fn towards_value(&self, alloc: Global, lit: Lit) -> Result<Lit, NoMemory>
        requires term { Exists (length self.now.bounds.simplex.bounds.system.ranges)
            (length self.now.bounds.simplex.bounds.system.rows) lit.term }
        requires inner { IsInner lit.bound }
        ensures { IfOk result (λ towards. (towards ≡ lit) ⊎ (towards ≡ negation lit)) }
    {
        if self.is_broken(alloc, lit)? {
            return Ok(lit.negation());
        }
        Ok(lit)
    }

    // Whether the simplex has a point at which a literal isn't true.
    fn is_broken(&self, alloc: Global, lit: Lit) -> Result<bool, NoMemory>
        requires { Exists (length self.now.bounds.simplex.bounds.system.ranges)
            (length self.now.bounds.simplex.bounds.system.rows) lit.term }
    {
        if !self.bounds.simplex.has_point {
            return Ok(false);
        }
        let Ok(value) = self.bounds.simplex.value(alloc, lit.term)? else {
            return Ok(false);
        };
        let whole = value.num.div_euclid(value.den);
        Ok(match lit.side {
            Side::Le => whole > lit.bound
                || (whole == lit.bound && value.num.rem_euclid(value.den) != 0),
            Side::Ge => whole < lit.bound,
        })
    }
}
