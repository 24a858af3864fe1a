ghost use Rattle.std.specs.Prelude.{◌≡◌, ◌≢◌, ◌↔◌, ◌≤◌, false, length, IfOk, OnOk};
ghost use Rattle.mix_system.specs.Tally.{units, CountsOne, pivot_bound};
ghost use Rattle.bounded_simplex.specs.Answer.{Answers, Mends, IsSpent, is_point};
ghost use Rattle.bounded_simplex.specs.Event.{IsFault, IsEventOn};
ghost use Rattle.bounded_simplex.specs.Listing.{IsListed, ArePlaced};
ghost use Rattle.bounded_simplex.specs.Refutation.{columns_of};

use crate::fault::Fault;
use crate::mended::Mended;
use crate::reach::look_at_rows;
use crate::refutation::first_contradiction;
use crate::{Simplex, TableauExcess};
use mix_system::{Farkas, Numbers, Tally, Terms, Work};
use std::alloc::Global;
use wx_base::{NoMemory, Sequence};

/// What a check of the bounds in force finds.
#[derive(Debug, Drop)]
pub enum Check {
    /// A rational point inside all bounds is kept.
    Point,
    /// Bounds in force that no point meets, as they add up.
    Refuted(Farkas),
    /// As many pivots were made as one check may make.
    Paused,
    /// The budget was spent before.
    Spent,
    /// Two numbers that the tableau forms leave 128 bits.
    Excess(TableauExcess),
}

impl Simplex<'_> {
    /// Looks for a rational point inside all bounds in force, by pivots; it counts one check.
    /// The bounds and their changes stay as they are.
    ///
    /// `Spent` comes exactly where the budget was spent before. After `NoMemory` the simplex is one
    /// of the same system and bounds.
    pub fn check(&mut self, alloc: Global, tally: &mut Tally) -> Result<Check, NoMemory>
        ensures bounds { self.new.bounds ≡ self.old.bounds }
        ensures answer { IfOk result
            (Answers self.new.bounds self.new.tableau.rows.items self.new.values.items
            self.new.made self.new.listing.basis.items self.new.listing.rest.items) }
        ensures listed { OnOk result (IsListed self.new.bounds.system
            self.new.tableau.rows.items self.new.values.items
            self.new.listing.basis.items self.new.listing.rest.items) }
        ensures made { self.new.made ≤ pivot_bound self.new.bounds.system }
        ensures point { IfOk result (λ check. self.new.has_point ≡ is_point check) }
        ensures spent { IfOk result (λ check. IsSpent check
            ↔ (units tally.old ≡ tally.old.budget)) }
        ensures counted { units tally.old ≢ tally.old.budget
            → CountsOne Work.Check tally.old tally.new }
        ensures unchanged { units tally.old ≡ tally.old.budget → tally.new ≡ tally.old }
    {
        self.made = 0;
        self.has_point = false;
        if !tally.tick(Work::Check) {
            self.list(alloc)?;
            return Ok(Check::Spent);
        }
        let mended = self.work(alloc)?;
        self.list(alloc)?;
        self.answer(alloc, mended)
    }

    // The bounds of one term contradict each other, or broken basic columns are mended.
    fn work(&mut self, alloc: Global) -> Result<Mended, NoMemory>
        requires none_made { self.old.made ≡ 0 }
        requires no_point { self.old.has_point ≡ false }
        ensures bounds { self.new.bounds ≡ self.old.bounds }
        ensures answer { IfOk result
            (Mends self.new.bounds self.new.tableau.rows.items self.new.values.items
            self.new.made) }
        ensures made { self.new.made ≤ pivot_bound self.new.bounds.system }
        ensures no_point { self.new.has_point ≡ false }
    {
        if let Some(farkas) = first_contradiction(alloc, &self.bounds)? {
            return Ok(Mended::Refuted(farkas));
        }
        match look_at_rows(&self.bounds, &mut self.reaches) {
            Ok(()) => {}
            Err(beyond) => return self.beyond(alloc, beyond),
        }
        self.settle();
        self.mend(alloc)
    }

    // Lists the tableau in force.
    fn list(&mut self, alloc: Global) -> Result<(), NoMemory>
        requires no_point { self.old.has_point ≡ false }
        ensures bounds { self.new.bounds ≡ self.old.bounds }
        ensures rows { self.new.tableau.rows.items ≡ self.old.tableau.rows.items }
        ensures values { self.new.values.items ≡ self.old.values.items }
        ensures made { self.new.made ≡ self.old.made }
        ensures no_point { self.new.has_point ≡ false }
        ensures listed { OnOk result (IsListed self.new.bounds.system
            self.new.tableau.rows.items self.new.values.items
            self.new.listing.basis.items self.new.listing.rest.items) }
        ensures one_each { OnOk result (length self.new.listing.places.items
            ≡ columns_of self.new.bounds.system) }
        ensures placed { OnOk result (ArePlaced self.new.tableau.rows.items
            self.new.listing.places.items) }
    {
        self.listing
            .list(&self.bounds, &self.tableau.rows, &self.values)
    }

    // What pivots came to as an answer.
    fn answer(&mut self, alloc: Global, mended: Mended) -> Result<Check, NoMemory>
        requires mends { Mends self.old.bounds self.old.tableau.rows.items self.old.values.items
            self.old.made mended }
        requires no_point { self.old.has_point ≡ false }
        requires listed { IsListed self.old.bounds.system
            self.old.tableau.rows.items self.old.values.items
            self.old.listing.basis.items self.old.listing.rest.items }
        requires one_each { length self.old.listing.places.items
            ≡ columns_of self.old.bounds.system }
        requires placed { ArePlaced self.old.tableau.rows.items self.old.listing.places.items }
        ensures bounds { self.new.bounds ≡ self.old.bounds }
        ensures rows { self.new.tableau.rows.items ≡ self.old.tableau.rows.items }
        ensures values { self.new.values.items ≡ self.old.values.items }
        ensures made { self.new.made ≡ self.old.made }
        ensures listing { self.new.listing ≡ self.old.listing }
        ensures point { IfOk result (λ check. self.new.has_point ≡ is_point check) }
        ensures answer { IfOk result
            (Answers self.new.bounds self.new.tableau.rows.items self.new.values.items
            self.new.made self.new.listing.basis.items self.new.listing.rest.items) }
        ensures not_spent { IfOk result (λ check. ¬ IsSpent check) }
    {
        match mended {
            Mended::Point => {
                self.has_point = true;
                Ok(Check::Point)
            }
            Mended::Refuted(farkas) => Ok(Check::Refuted(farkas)),
            Mended::Paused => Ok(Check::Paused),
            Mended::Excess(fault) => Ok(Check::Excess(self.excess(alloc, fault)?)),
        }
    }

    // A fault of the tableau in force, with its basis and the values outside it.
    pub(crate) fn excess(&self, alloc: Global, fault: Fault) -> Result<TableauExcess, NoMemory>
        requires fault { IsFault self.now.bounds self.now.tableau.rows.items self.now.values.items
            fault }
        requires listed { IsListed self.now.bounds.system
            self.now.tableau.rows.items self.now.values.items
            self.now.listing.basis.items self.now.listing.rest.items }
        ensures event { IfOk result (IsEventOn self.now.bounds
            self.now.listing.basis.items self.now.listing.rest.items) }
        ensures place { IfOk result (λ excess. excess.place ≡ fault.place) }
    {
        let basis = listed(alloc, &self.listing.basis)?;
        let rest = listed(alloc, &self.listing.rest)?;
        let Fault { place, excess } = fault;
        Ok(TableauExcess {
            basis,
            rest,
            place,
            op: excess.op,
            x: excess.x,
            y: excess.y,
        })
    }
}

// A copy of a list.
fn listed<T: Copy>(alloc: Global, items: &[T]) -> Result<Sequence<T>, NoMemory>
    ensures { IfOk result (λ list. list ≡ items.now) }
{
    let mut list = Sequence::with_capacity(alloc, items.len())?;
    for item in items {
        list.push(*item)?;
    }
    Ok(list)
}
