ghost use Rattle.std.specs.Prelude.{◌≡◌, ◌≢◌, ◌↔◌, ℕ, ◌<◌, true, length, Some, IfOk};
ghost use Rattle.mix_system.specs.Row.{number_at};
ghost use Rattle.mix_system.specs.Tally.{units, CountsOne};
ghost use Rattle.bounded_simplex.specs.Combination.{IsCalmBox};
ghost use Rattle.bounded_simplex.specs.Point.{IsPoint};
ghost use Rattle.bounded_simplex.specs.InForce.{in_force};
ghost use Rattle.integer_splits.specs.Work.{Finds, IsNothing};

use crate::halving::{Halving, widest};
use crate::whole::{fractional, whole_point};
use bounded_simplex::{Bounds, Check, Simplex, first_contradiction, refute_sums};
use mix_system::{Farkas, Numbers, Side, Tally, Term, Work};
use std::alloc::Global;
use wx_base::NoMemory;

/// What is found of the box in work.
#[derive(Debug, Drop)]
pub(crate) enum Worked {
    /// A whole point inside all bounds.
    Point(Numbers),
    /// Bounds in force that refute the box.
    Leaf(Farkas),
    /// A variable's range, to be halved.
    Halve(Halving),
    /// The budget was spent before.
    Spent,
}

/// Works the box of the bounds in force by one check. The bounds stay as they are.
pub(crate) fn work(
    alloc: Global,
    simplex: &mut Simplex<'_>,
    tally: &mut Tally,
) -> Result<Worked, NoMemory>
    requires calm { IsCalmBox simplex.old.bounds }
    ensures bounds { simplex.new.bounds ≡ simplex.old.bounds }
    ensures found { IfOk result (Finds simplex.new.bounds) }
    ensures spent { IfOk result (λ worked. IsNothing worked
        ↔ (units tally.old ≡ tally.old.budget)) }
    ensures counted { units tally.old ≢ tally.old.budget
        → CountsOne Work.Check tally.old tally.new }
    ensures unchanged { units tally.old ≡ tally.old.budget → tally.new ≡ tally.old }
{
    match simplex.check(alloc, tally)? {
        Check::Point => at_point(alloc, simplex),
        Check::Refuted(farkas) => Ok(Worked::Leaf(farkas)),
        Check::Spent => Ok(Worked::Spent),
        Check::Paused | Check::Excess(_) => without_point(alloc, simplex),
    }
}

// The kept point where it is whole, else the range of a variable whose value isn't.
fn at_point(alloc: Global, simplex: &Simplex<'_>) -> Result<Worked, NoMemory>
    requires calm { IsCalmBox simplex.now.bounds }
    requires has_point { simplex.now.has_point ≡ true }
    requires point { IsPoint simplex.now.bounds simplex.now.tableau.rows.items
        simplex.now.values.items }
    ensures found { IfOk result (Finds simplex.now.bounds) }
    ensures not_spent { IfOk result (λ worked. ¬ IsNothing worked) }
{
    if let Some(point) = whole_point(alloc, simplex)? {
        return Ok(Worked::Point(point));
    }
    if let Some(halving) = fractional(alloc, simplex)? {
        return Ok(Worked::Halve(halving));
    }
    without_point(alloc, simplex)
}

// The widest range. Where each variable is fixed, the sums of the rows decide.
fn without_point(alloc: Global, simplex: &Simplex<'_>) -> Result<Worked, NoMemory>
    requires calm { IsCalmBox simplex.now.bounds }
    ensures found { IfOk result (Finds simplex.now.bounds) }
    ensures not_spent { IfOk result (λ worked. ¬ IsNothing worked) }
{
    if let Some(halving) = widest(simplex) {
        return Ok(Worked::Halve(halving));
    }
    if let Some(farkas) = first_contradiction(alloc, &simplex.bounds)? {
        return Ok(Worked::Leaf(farkas));
    }
    if let Some(farkas) = refute_sums(alloc, &simplex.bounds)? {
        return Ok(Worked::Leaf(farkas));
    }
    Ok(Worked::Point(low_ends(alloc, &simplex.bounds)?))
}

// The low end of each variable's range in force.
fn low_ends(alloc: Global, bounds: &Bounds<'_>) -> Result<Numbers, NoMemory>
    ensures count { IfOk result (λ point. length point ≡ length bounds.now.system.ranges) }
    ensures low { IfOk result (λ point. (var : ℕ) → var < length bounds.now.system.ranges
        → in_force bounds.now (Term.Var var) Side.Ge ≡ Some (number_at point var)) }
{
    let mut point = Numbers::new(alloc);
    for var in 0..bounds.system().vars() {
        point.push(low_end(bounds, var))?;
    }
    Ok(point)
}

// Each variable has one, as its range does.
fn low_end(bounds: &Bounds<'_>, var: u32) -> i128
    requires { var < length bounds.now.system.ranges }
    ensures { in_force bounds.now (Term.Var var) Side.Ge ≡ Some result }
{
    match bounds.low(Term::Var(var)) {
        Some(low) => low,
        None => 0,
    }
}
