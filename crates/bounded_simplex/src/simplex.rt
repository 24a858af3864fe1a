ghost use Rattle.std.specs.Prelude.{◌≡◌, ◌≢◌, ◌↔◌, ℕ, ◌+◌, ◌<◌, ◌≤◌, ℤ, pos, true, false, [], ◌∷◌, ◌++◌, length, take, All, slice_index_or, Option, IfOk, IfErr, IfSome, IfNone, OnOk, OnErr};
ghost use Rattle.mix_system.specs.Fits.{IsInRange};
ghost use Rattle.mix_system.specs.Row.{number_at};
ghost use Rattle.mix_system.specs.System.{Exists};
ghost use Rattle.bounded_simplex.specs.InForce.{in_force, Contradict};
ghost use Rattle.bounded_simplex.specs.Listing.{IsListed, ArePlaced};
ghost use Rattle.bounded_simplex.specs.Refutation.{columns_of, bound_on};
ghost use Rattle.tableau_rows.specs.declared.equation.Equation.{Equation as AnEquation};
ghost use Rattle.bounded_simplex.specs.Reach.{AreReaches, AreInReach};
ghost use Rattle.bounded_simplex.specs.Settled.{AreLow};
ghost use Rattle.bounded_simplex.specs.TableauOf.{TableauOf, IsOfRow};

use crate::reach::unknown_reaches;
use crate::{Bounds, Listing, Mark, Reach, Tableau};
use mix_system::{Lit, Side, System, Term};
use std::alloc::Global;
use wx_base::NoMemory;

/// The exact simplex: the bounds in force on a system, a tableau of it, and the value of each
/// column. The values of the basic columns are those that the tableau gives; what is stored for
/// them isn't read.
#[derive(Debug, Drop)]
pub struct Simplex<'a> {
    pub bounds: Bounds<'a>,
    pub tableau: Tableau,
    pub values: Vec<i128>,
    /// The sums of rows over the ranges, as far as they are known.
    pub reaches: Vec<Reach>,
    /// Its basis and the values outside it, as they stood after the last check.
    pub listing: Listing,
    /// The pivots of the last check, 0 before the first.
    pub made: u64,
    /// Whether the last check kept a point and no bound was put or given back since.
    pub has_point: bool,
    pub ghost tableau_of: { TableauOf bounds.system tableau.rows.items },
    pub ghost in_reach: { AreInReach bounds.system tableau.rows.items values.items },
    pub ghost reached: { AreReaches bounds.system reaches.items },
    pub ghost one_each: { length values.items ≡ columns_of bounds.system },
    pub ghost listed: { has_point ≡ true → IsListed bounds.system tableau.rows.items values.items
        listing.basis.items listing.rest.items },
    pub ghost places: { has_point ≡ true
        → length listing.places.items ≡ columns_of bounds.system },
    pub ghost placed: { has_point ≡ true → ArePlaced tableau.rows.items listing.places.items },
}

impl<'a> Simplex<'a> {
    /// The simplex of a system, with room for so many changes of bounds, and none made. Its basis
    /// is the rows, and each variable stands at the low end of its range.
    pub fn new(alloc: Global, system: &'a System, room: u32) -> Result<Simplex<'a>, NoMemory>
        ensures system { IfOk result (λ simplex. simplex.bounds.system ≡ system.entry.now) }
        ensures changes { IfOk result (λ simplex. simplex.bounds.changes ≡ []) }
        ensures room { IfOk result (λ simplex. simplex.bounds.room ≡ room) }
        ensures made { IfOk result (λ simplex. simplex.made ≡ 0) }
        ensures no_point { IfOk result (λ simplex. simplex.has_point ≡ false) }
        ensures basis { IfOk result (λ simplex. (k : ℕ) (d : AnEquation)
            → k < length simplex.tableau.rows.items
            → IsOfRow system.entry.now k (slice_index_or simplex.tableau.rows.items k d)) }
        ensures values { IfOk result (λ simplex. AreLow system.entry.now simplex.values.items) }
        ensures listed { IfOk result (λ simplex. IsListed system.entry.now
            simplex.tableau.rows.items simplex.values.items
            simplex.listing.basis.items simplex.listing.rest.items) }
    {
        let bounds = Bounds::new(alloc, system, room)?;
        let tableau = Tableau::new(alloc, system)?;
        let values = first_values(alloc, system)?;
        let reaches = unknown_reaches(alloc, system)?;
        let mut listing = Listing::new(alloc);
        listing.list(&bounds, &tableau.rows, &values)?;
        Ok(Simplex {
            bounds,
            tableau,
            values,
            reaches,
            listing,
            made: 0,
            has_point: false,
        })
    }

    /// The system.
    pub fn system(&self) -> &System
        ensures { result.now ≡ self.now.bounds.system }
    {
        self.bounds.system()
    }

    /// How many more changes there is room for.
    pub fn spare(&self) -> u32
        ensures count { result + length self.now.bounds.changes ≡ self.now.bounds.room }
    {
        self.bounds.spare()
    }

    /// Puts a literal to the bounds, as one change, whether it tightens a bound or not. False
    /// exactly where the term's bounds then contradict each other; the change is made all the same.
    /// It takes no memory.
    pub fn assert_bound(&mut self, lit: &Lit) -> bool
        requires spare { length self.old.bounds.changes < self.old.bounds.room }
        requires exists { Exists (length self.old.bounds.system.ranges)
            (length self.old.bounds.system.rows) lit.now.term }
        ensures changes { self.new.bounds
            ≡ record self.old.bounds { changes = self.old.bounds.changes ++ lit.now ∷ [] } }
        ensures answer { (result ≡ false)
            ↔ Contradict (in_force self.new.bounds lit.now.term Side.Ge)
            (in_force self.new.bounds lit.now.term Side.Le) }
        ensures tableau { self.new.tableau ≡ self.old.tableau }
        ensures values { self.new.values.items ≡ self.old.values.items }
        ensures reaches { self.new.reaches.items ≡ self.old.reaches.items }
        ensures listing { self.new.listing ≡ self.old.listing }
        ensures made { self.new.made ≡ self.old.made }
        ensures no_point { self.new.has_point ≡ false }
    {
        self.has_point = false;
        self.bounds.assert_bound(lit)
    }

    /// The number of changes in force.
    pub fn mark(&self) -> Mark
        ensures { result.changes ≡ length self.now.bounds.changes }
    {
        self.bounds.mark()
    }

    /// Keeps just the first changes, as many as there were at the mark. The tableau stays as it
    /// is. It takes no memory.
    pub fn back_to(&mut self, mark: Mark)
        requires { mark.changes ≤ length self.old.bounds.changes }
        ensures changes { self.new.bounds
            ≡ record self.old.bounds { changes = take mark.changes self.old.bounds.changes } }
        ensures tableau { self.new.tableau ≡ self.old.tableau }
        ensures values { self.new.values.items ≡ self.old.values.items }
        ensures reaches { self.new.reaches.items ≡ self.old.reaches.items }
        ensures listing { self.new.listing ≡ self.old.listing }
        ensures made { self.new.made ≡ self.old.made }
        ensures no_point { self.new.has_point ≡ false }
    {
        self.has_point = false;
        self.bounds.back_to(mark);
    }

    /// The terms of the basis, in any order, as the last check left it.
    pub fn basis(&self) -> &[Term]
        ensures { result.now ≡ self.now.listing.basis.items }
    {
        &self.listing.basis
    }

    /// The values of all other terms, in the order of terms, as the last check left them.
    pub fn rest(&self) -> &[i128]
        ensures { result.now ≡ self.now.listing.rest.items }
    {
        &self.listing.rest
    }

    /// The lower bound in force, `None` where the term has none.
    pub fn low(&self, term: Term) -> Option<i128>
        requires { Exists (length self.now.bounds.system.ranges)
            (length self.now.bounds.system.rows) term }
        ensures { result ≡ in_force self.now.bounds term Side.Ge }
    {
        self.bounds.low(term)
    }

    /// The upper bound in force, `None` where the term has none.
    pub fn high(&self, term: Term) -> Option<i128>
        requires { Exists (length self.now.bounds.system.ranges)
            (length self.now.bounds.system.rows) term }
        ensures { result ≡ in_force self.now.bounds term Side.Le }
    {
        self.bounds.high(term)
    }
}

// The least value of each variable's range, and 0 for each row.
fn first_values(alloc: Global, system: &System) -> Result<Vec<i128>, NoMemory>
    ensures count { IfOk result (λ values. length values.items ≡ columns_of system.now) }
    ensures low { IfOk result (λ values. AreLow system.now values.items) }
    ensures in_range { IfOk result (λ values. (var : ℕ) → var < length system.now.ranges
        → IsInRange (slice_index_or system.now.ranges var (pos 0, pos 0))
        (number_at values.items var)) }
{
    let columns = system.vars() as usize + system.rows() as usize;
    let mut values = Vec::with_capacity(alloc, columns)?;
    for var in 0..system.vars() {
        let (low, _high) = system.range(var);
        values.push(low)?;
    }
    for _row in 0..system.rows() {
        values.push(0)?;
    }
    Ok(values)
}
