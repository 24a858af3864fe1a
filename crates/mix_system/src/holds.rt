ghost use Rattle.std.specs.Prelude.{◌≡◌, ◌↔◌, ◌<◌, length, IsTrue, IsOk, IfOk, IfErr, All, Any};
ghost use Rattle.mix_system.specs.System.{Exists};
ghost use Rattle.mix_system.specs.Fits.{Fits, IsInRanges, IsTrueAt, term_value, IsRowExcess};
ghost use Rattle.mix_system.specs.Calm.{IsCalm};

use crate::row::row_sum;
use crate::{Lit, Side, System, Term};
use wx_num::Excess;

impl System {
    /// Whether a point, one number for each variable, fits: each number lies in its variable's range, and each clause has a true literal.
    ///
    /// Where a row's sum has a step that would overflow, the answer may be that step. A calm system has none.
    /// It takes no memory.
    pub fn holds(&self, point: &[i128]) -> Result<bool, Excess>
        requires { length point.now ≡ length self.now.ranges }
        ensures fits { IfOk result (λ yes. IsTrue yes ↔ Fits self.now point.now) }
        ensures excess { IfErr result (IsRowExcess self.now point.now) }
        ensures calm { IsCalm self.now → IsOk result }
    {
        if !self.is_in_ranges(point) {
            return Ok(false);
        }
        for at in 0..self.clauses() {
            if !self.has_true_literal(self.clause(at), point)? {
                return Ok(false);
            }
        }
        Ok(true)
    }

    // Whether each number lies in its variable's range.
    fn is_in_ranges(&self, point: &[i128]) -> bool
        requires { length point.now ≡ length self.now.ranges }
        ensures { IsTrue result ↔ IsInRanges self.now.ranges point.now }
    {
        for var in 0..self.vars() {
            let (low, high) = self.range(var);
            let number = point[var as usize];
            if number < low || high < number {
                return false;
            }
        }
        true
    }

    // Whether some literal of a clause is true, or a step of a row's sum that would overflow.
    fn has_true_literal(&self, clause: &[Lit], point: &[i128]) -> Result<bool, Excess>
        requires numbers { length point.now ≡ length self.now.ranges }
        requires terms { All (λ lit. Exists (length self.now.ranges) (length self.now.rows) lit.term) clause.now }
        ensures met { IfOk result
            (λ yes. IsTrue yes ↔ Any (IsTrueAt self.now.rows point.now) clause.now) }
        ensures excess { IfErr result (IsRowExcess self.now point.now) }
    {
        for lit in clause {
            let value = self.value(lit.term, point)?;
            let is_true = match lit.side {
                Side::Le => value <= lit.bound,
                Side::Ge => value >= lit.bound,
            };
            if is_true {
                return Ok(true);
            }
        }
        Ok(false)
    }

    // The number of a variable or the sum of a row.
    fn value(&self, term: Term, point: &[i128]) -> Result<i128, Excess>
        requires numbers { length point.now ≡ length self.now.ranges }
        requires exists { Exists (length self.now.ranges) (length self.now.rows) term }
        ensures value { IfOk result (λ value. value ≡ term_value self.now.rows point.now term) }
        ensures excess { IfErr result (IsRowExcess self.now point.now) }
    {
        match term {
            Term::Var(var) => Ok(point[var as usize]),
            Term::Row(row) => row_sum(self.row(row), point),
        }
    }
}
