ghost use Rattle.std.specs.Prelude.{◌≡◌, ◌+◌, ◌<◌, ℕ, ℤ, ◌*ℤ◌, true, length, slice_index_or, IfOk, IfErr, IfSome, IfNone};
ghost use Rattle.mix_system.specs.System.{Exists};
ghost use Rattle.tableau_rows.specs.declared.equation.Equation.{Equation as AnEquation};
ghost use Rattle.bounded_simplex.specs.Event.{IsFault, IsEventOn};
ghost use Rattle.bounded_simplex.specs.Point.{IsKeptPoint};
ghost use Rattle.bounded_simplex.specs.TableauOf.{column_of as column_of_term};

use crate::fault::Fault;
use crate::{Place, Ratio, Simplex, TableauExcess};
use mix_system::Term;
use std::alloc::Global;
use wx_base::NoMemory;

impl Simplex<'_> {
    /// The value of a term at the point that the last check kept. The check answered `Point`, and
    /// no bound changed since.
    pub fn value(&self, alloc: Global, term: Term) -> Result<Result<Ratio, TableauExcess>, NoMemory>
        requires exists { Exists (length self.now.bounds.system.ranges)
            (length self.now.bounds.system.rows) term }
        requires point { self.now.has_point ≡ true }
        ensures value { IfOk result (λ found. IfOk found (λ ratio.
            (denominator : ℤ) (number : ℕ → ℤ)
            → IsKeptPoint self.now.bounds.system self.now.tableau.rows.items
            self.now.values.items denominator number
            → ratio.num *ℤ denominator
            ≡ number (column_of_term (length self.now.bounds.system.ranges) term) *ℤ ratio.den)) }
        ensures excess { IfOk result (λ found. IfErr found (IsEventOn self.now.bounds
            self.now.listing.basis.items self.now.listing.rest.items)) }
    {
        match self.column_value(self.column_of(term)) {
            Ok(ratio) => Ok(Ok(ratio)),
            Err(fault) => Ok(Err(self.excess(alloc, fault)?)),
        }
    }

    // The value of a column.
    fn column_value(&self, column: u32) -> Result<Ratio, Fault>
        requires within { column
            < length self.now.bounds.system.ranges + length self.now.bounds.system.rows }
        requires point { self.now.has_point ≡ true }
        ensures value { IfOk result (λ ratio. (denominator : ℤ) (number : ℕ → ℤ)
            → IsKeptPoint self.now.bounds.system self.now.tableau.rows.items
            self.now.values.items denominator number
            → ratio.num *ℤ denominator ≡ number column *ℤ ratio.den) }
        ensures fault { IfErr result
            (IsFault self.now.bounds self.now.tableau.rows.items self.now.values.items) }
    {
        match self.listing.places[column as usize] {
            Some(at) => self.basic_value(at as usize),
            None => Ok(Ratio::reduced(self.values[column as usize], 1)),
        }
    }

    // The value of the basic column of the equation at a place.
    fn basic_value(&self, at: usize) -> Result<Ratio, Fault>
        requires { at < length self.now.tableau.rows.items }
        ensures value { IfOk result (λ ratio. (d : AnEquation) (denominator : ℤ) (number : ℕ → ℤ)
            → IsKeptPoint self.now.bounds.system self.now.tableau.rows.items
            self.now.values.items denominator number
            → ratio.num *ℤ denominator
            ≡ number (slice_index_or self.now.tableau.rows.items at d).basic *ℤ ratio.den) }
        ensures fault { IfErr result
            (IsFault self.now.bounds self.now.tableau.rows.items self.now.values.items) }
    {
        let equation = &self.tableau.rows[at];
        let basic = self.bounds.term_at(equation.basic);
        match equation.numerator(&self.values) {
            Ok(numerator) => Ok(Ratio::reduced(numerator, equation.denominator)),
            Err(excess) => {
                let place = Place::Value { basic };
                Err(Fault { place, excess })
            }
        }
    }

    // The column of a term.
    fn column_of(&self, term: Term) -> u32
        requires { Exists (length self.now.bounds.system.ranges)
            (length self.now.bounds.system.rows) term }
        ensures column { result ≡ column_of_term (length self.now.bounds.system.ranges) term }
        ensures within { result
            < length self.now.bounds.system.ranges + length self.now.bounds.system.rows }
    {
        match term {
            Term::Var(var) => var,
            Term::Row(row) => self.bounds.system().vars() + row,
        }
    }
}
