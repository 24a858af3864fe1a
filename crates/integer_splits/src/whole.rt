ghost use Rattle.std.specs.Prelude.{◌≡◌, ◌<◌, true, length, IfOk, IfSome};
ghost use Rattle.bounded_simplex.specs.Combination.{AreSmall};
ghost use Rattle.integer_splits.specs.Halving.{IsHalving};
ghost use Rattle.integer_splits.specs.WholePoint.{IsValueOf, AreValuesOf};

use crate::halving::{Halving, halving_of, narrower};
use bounded_simplex::Simplex;
use mix_system::{Numbers, Term};
use std::alloc::Global;
use wx_base::NoMemory;

/// The kept point, where the value of each variable is whole.
pub(crate) fn whole_point(alloc: Global, simplex: &Simplex<'_>) -> Result<Option<Numbers>, NoMemory>
    requires point { simplex.now.has_point ≡ true }
    ensures count { IfOk result (λ found. IfSome found
        (λ point. length point ≡ length simplex.now.bounds.system.ranges)) }
    ensures values { IfOk result (λ found. IfSome found
        (AreValuesOf simplex.now.bounds simplex.now.tableau.rows.items simplex.now.values.items)) }
{
    let mut point = Numbers::new(alloc);
    for var in 0..simplex.system().vars() {
        match whole_value(alloc, simplex, var)? {
            Some(value) => point.push(value)?,
            None => return Ok(None),
        }
    }
    Ok(Some(point))
}

/// Among the variables whose value isn't whole, or can't be formed, the halving of the smallest
/// range in force.
pub(crate) fn fractional(alloc: Global, simplex: &Simplex<'_>) -> Result<Option<Halving>, NoMemory>
    requires point { simplex.now.has_point ≡ true }
    requires small { AreSmall simplex.now.bounds }
    ensures { IfOk result (λ found. IfSome found
        (λ h. IsHalving simplex.now.bounds h.var h.at)) }
{
    let mut narrowest = None;
    for var in 0..simplex.system().vars() {
        if whole_value(alloc, simplex, var)?.is_some() {
            continue;
        }
        narrowest = narrower(narrowest, halving_of(simplex, var));
    }
    Ok(narrowest)
}

// The value of a variable at the kept point, where it is whole.
fn whole_value(alloc: Global, simplex: &Simplex<'_>, var: u32) -> Result<Option<i128>, NoMemory>
    requires within { var < length simplex.now.bounds.system.ranges }
    requires point { simplex.now.has_point ≡ true }
    ensures { IfOk result (λ found. IfSome found
        (IsValueOf simplex.now.bounds simplex.now.tableau.rows.items
        simplex.now.values.items var)) }
{
    let Ok(ratio) = simplex.value(alloc, Term::Var(var))? else {
        return Ok(None);
    };
    if ratio.den != 1 {
        return Ok(None);
    }
    Ok(Some(ratio.num))
}
