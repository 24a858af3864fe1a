ghost use Rattle.std.specs.Prelude.{◌≡◌, ◌≢◌, ◌⊎◌, ◌↔◌, ◌+◌, ◌<◌, ◌≤◌, ◌^◌, pos, true, false, length, All, slice_index_or, IfOk, IfErr, IfSome, IfNone, OnOk, OnErr};
ghost use Rattle.mix_system.specs.Row.{number_at};
ghost use Rattle.mix_system.specs.Tally.{pivot_bound};
ghost use Rattle.tableau_rows.specs.Substitution.{taken};
ghost use Rattle.tableau_rows.specs.declared.equation.Equation.{Equation as AnEquation};
ghost use Rattle.bounded_simplex.specs.Answer.{Mends};
ghost use Rattle.bounded_simplex.specs.Broken.{IsBroken, side_of};
ghost use Rattle.bounded_simplex.specs.Event.{IsFault, IsOfBounded};
ghost use Rattle.bounded_simplex.specs.Point.{NoneContradict, AreInBounds};
ghost use Rattle.bounded_simplex.specs.Reach.{HaveRoom};
ghost use Rattle.bounded_simplex.specs.Refutation.{columns_of, IsHindered};

use crate::broken::{Broken, first_broken};
use crate::entering::entering;
use crate::fault::Fault;
use crate::mended::Mended;
use crate::settle::put_at_bound;
use crate::{PivotExcess, Place, Simplex, refute};
use mix_system::Side;
use std::alloc::Global;
use wx_base::NoMemory;

impl Simplex<'_> {
    // Mends broken basic columns by pivots. Where a number leaves 128 bits it begins once more,
    // from the first basis.
    pub(crate) fn mend(&mut self, alloc: Global) -> Result<Mended, NoMemory>
        requires apart { NoneContradict self.old.bounds }
        requires room { HaveRoom self.old.bounds self.old.reaches.items }
        requires in_bounds { AreInBounds self.old.bounds self.old.values.items }
        requires none_made { self.old.made ≡ 0 }
        requires no_point { self.old.has_point ≡ false }
        ensures bounds { self.new.bounds ≡ self.old.bounds }
        ensures answer { IfOk result
            (Mends self.new.bounds self.new.tableau.rows.items self.new.values.items
            self.new.made) }
        ensures made { self.new.made ≤ pivot_bound self.new.bounds.system }
        ensures no_point { self.new.has_point ≡ false }
    {
        match self.pivots(alloc)? {
            Mended::Excess(_) => {
                self.start_anew(alloc)?;
                self.pivots(alloc)
            }
            mended => Ok(mended),
        }
    }

    // Makes the basis the rows again. The bounds and the count of pivots stay.
    fn start_anew(&mut self, alloc: Global) -> Result<(), NoMemory>
        requires apart { NoneContradict self.old.bounds }
        requires room { HaveRoom self.old.bounds self.old.reaches.items }
        requires no_point { self.old.has_point ≡ false }
        ensures bounds { self.new.bounds ≡ self.old.bounds }
        ensures reaches { self.new.reaches.items ≡ self.old.reaches.items }
        ensures made { self.new.made ≡ self.old.made }
        ensures no_point { self.new.has_point ≡ false }
        ensures in_bounds { OnOk result (AreInBounds self.new.bounds self.new.values.items) }
    {
        self.first_basis(alloc)?;
        self.settle();
        Ok(())
    }

    // Pivots until no basic column is broken: short equations first and columns that few of them
    // take, so that equations stay short. That may go in a circle, so after a quarter of all pivots
    // that may be made it is always the least column of both, which can't.
    fn pivots(&mut self, alloc: Global) -> Result<Mended, NoMemory>
        requires in_bounds { AreInBounds self.old.bounds self.old.values.items }
        requires room { HaveRoom self.old.bounds self.old.reaches.items }
        requires made { self.old.made ≤ pivot_bound self.old.bounds.system }
        requires no_point { self.old.has_point ≡ false }
        ensures bounds { self.new.bounds ≡ self.old.bounds }
        ensures answer { IfOk result
            (Mends self.new.bounds self.new.tableau.rows.items self.new.values.items
            self.new.made) }
        ensures reaches { self.new.reaches.items ≡ self.old.reaches.items }
        ensures made { self.new.made ≤ pivot_bound self.new.bounds.system }
        ensures no_point { self.new.has_point ≡ false }
    {
        let most = 16 * u64::from(self.bounds.columns());
        loop {
            let late = self.made >= most / 4;
            let broken = match first_broken(
                &self.bounds,
                &self.reaches,
                &self.tableau.rows,
                &self.values,
                late,
            ) {
                Ok(Some(broken)) => broken,
                Ok(None) => return Ok(Mended::Point),
                Err(fault) => return Ok(Mended::Excess(fault)),
            };
            let upwards = is_below(broken.side);
            let Some(column) = self.entering_for(broken, upwards, late) else {
                return self.refuted(alloc, broken, upwards);
            };
            if self.made >= most {
                return Ok(Mended::Paused);
            }
            match self.exchange(alloc, broken, column)? {
                Ok(()) => {}
                Err(fault) => return Ok(Mended::Excess(fault)),
            }
        }
    }

    // A column outside the basis that can move a broken basic column towards its bound.
    fn entering_for(&self, broken: Broken, upwards: bool, late: bool) -> Option<u32>
        requires { broken.at < length self.now.tableau.rows.items }
        ensures none { IfNone result ((d : AnEquation)
            → All (λ entry. (entry.column
            ≡ (slice_index_or self.now.tableau.rows.items broken.at d).basic)
            ⊎ IsHindered self.now.bounds upwards (number_at self.now.values.items) entry)
            (slice_index_or self.now.tableau.rows.items broken.at d).entries.items) }
        ensures takes { IfSome result (λ column. (d : AnEquation)
            → taken (slice_index_or self.now.tableau.rows.items broken.at d) column ≢ pos 0) }
        ensures enters { IfSome result (λ column. (d : AnEquation)
            → (slice_index_or self.now.tableau.rows.items broken.at d).basic ≢ column) }
    {
        let equation = &self.tableau.rows[broken.at];
        let guide = if late { None } else { Some(&self.tableau.uses) };
        entering(&self.bounds, &self.values, equation, upwards, guide)
    }

    // The refutation by a broken equation of which no column can move.
    fn refuted(&self, alloc: Global, broken: Broken, upwards: bool) -> Result<Mended, NoMemory>
        requires broken { IsBroken self.now.bounds self.now.tableau.rows.items
            self.now.values.items broken }
        requires upwards { broken.side ≡ side_of upwards }
        requires stays { (d : AnEquation)
            → All (λ entry. (entry.column
            ≡ (slice_index_or self.now.tableau.rows.items broken.at d).basic)
            ⊎ IsHindered self.now.bounds upwards (number_at self.now.values.items) entry)
            (slice_index_or self.now.tableau.rows.items broken.at d).entries.items }
        ensures answer { IfOk result
            (Mends self.now.bounds self.now.tableau.rows.items self.now.values.items
            self.now.made) }
    {
        let equation = &self.tableau.rows[broken.at];
        let basic = self.bounds.term_at(equation.basic);
        match refute(alloc, &self.bounds, equation, upwards)? {
            Ok(Some(farkas)) => Ok(Mended::Refuted(farkas)),
            // There is one, as each column stands at its bound.
            Ok(None) => Ok(Mended::Paused),
            Err(excess) => {
                let place = Place::Combine { basic };
                Ok(Mended::Excess(Fault { place, excess }))
            }
        }
    }

    // The pivot by which a column takes the place of a broken basic one, which leaves the basis at
    // the bound that it broke.
    fn exchange(
        &mut self,
        alloc: Global,
        broken: Broken,
        column: u32,
    ) -> Result<Result<(), Fault>, NoMemory>
        requires broken { IsBroken self.old.bounds self.old.tableau.rows.items
            self.old.values.items broken }
        requires in_bounds { AreInBounds self.old.bounds self.old.values.items }
        requires takes { (d : AnEquation)
            → taken (slice_index_or self.old.tableau.rows.items broken.at d) column ≢ pos 0 }
        requires enters { (d : AnEquation)
            → (slice_index_or self.old.tableau.rows.items broken.at d).basic ≢ column }
        requires no_point { self.old.has_point ≡ false }
        requires few_made { self.old.made + 1 < 2 ^ 64 }
        requires room { HaveRoom self.old.bounds self.old.reaches.items }
        ensures bounds { self.new.bounds ≡ self.old.bounds }
        ensures reaches { self.new.reaches.items ≡ self.old.reaches.items }
        ensures no_point { self.new.has_point ≡ false }
        ensures in_bounds { IfOk result
            (λ found. OnOk found (AreInBounds self.new.bounds self.new.values.items)) }
        ensures made { IfOk result (λ found. OnOk found (self.new.made ≡ self.old.made + 1)) }
        ensures not_made { IfOk result (λ found. OnErr found (self.new.made ≡ self.old.made)) }
        ensures no_memory { OnErr result (self.new.made ≡ self.old.made) }
        ensures excess { IfOk result (λ found. IfErr found
            (IsFault self.new.bounds self.new.tableau.rows.items self.new.values.items)) }
        ensures bounded { IfOk result (λ found. IfErr found
            (λ fault. IsOfBounded self.new.bounds fault.place)) }
    {
        let basic = self.bounds.term_at(broken.basic);
        let entering = self.bounds.term_at(column);
        match self.tableau.pivot(alloc, broken.at, column)? {
            Ok(()) => {
                let bound = self.bounds.end(basic, broken.side);
                put_at_bound(&mut self.values, broken.basic, bound);
                self.made += 1;
                Ok(Ok(()))
            }
            Err(PivotExcess { changed, excess }) => {
                let changed = self.bounds.term_at(changed);
                let place = Place::Pivot {
                    basic,
                    entering,
                    changed,
                };
                Ok(Err(Fault { place, excess }))
            }
        }
    }
}

// Whether the lower bound is the broken one, so that the basic column is to be moved upwards.
fn is_below(side: Side) -> bool
    ensures { side ≡ side_of result }
{
    match side {
        Side::Ge => true,
        Side::Le => false,
    }
}
