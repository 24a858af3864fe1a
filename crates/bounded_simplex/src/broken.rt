ghost use Rattle.std.specs.Prelude.{◌≡◌, ◌⊎◌, ◌↔◌, ◌<◌, None, length, slice_index_or, All, IfOk, IfErr, IfSome, IfNone, IsSome, IsTrue, IsFalse};
ghost use Rattle.mix_system.specs.Lit.{IsWithin};
ghost use Rattle.wx_num.specs.Excess.{Overflows};
ghost use Rattle.tableau_rows.specs.declared.equation.Equation.{Equation as AnEquation};
ghost use Rattle.bounded_simplex.specs.Broken.{IsBroken, IsProduct, bound_of};
ghost use Rattle.bounded_simplex.specs.Event.{IsFormedAt, IsOfBounded, IsOfEquation};
ghost use Rattle.bounded_simplex.specs.Lax.{IsLax};
ghost use Rattle.bounded_simplex.specs.Reach.{HaveRoom};
ghost use Rattle.bounded_simplex.specs.Point.{Admits, Keeps as KeepsBound};
ghost use Rattle.bounded_simplex.specs.Refutation.{columns_of, bound_on};
ghost use Rattle.bounded_simplex.specs.TableauOf.{AreWithin};

use crate::fault::Fault;
use crate::reach::tight_end;
use crate::{Bounds, Place, Reach};
use mix_system::Side;
use tableau_rows::Equation;
use wx_num::{Excess, Num};

/// An equation, by its place and basic column, whose value lies outside the column's bound on a
/// side.
#[derive(Clone, Copy, Debug)]
pub(crate) struct Broken {
    pub(crate) at: usize,
    pub(crate) basic: u32,
    pub(crate) side: Side,
    // Among broken equations the lightest comes first.
    weight: usize,
}

impl Broken {
    // Whether it is mended before another: it is lighter, or of the lower basic column.
    fn is_before(&self, other: &Broken) -> bool {
        if self.weight != other.weight {
            return self.weight < other.weight;
        }
        self.basic < other.basic
    }
}

/// The broken equation that is to be mended first, `None` where all basic columns keep their
/// bounds: the shortest one, of the least basic column among equals, or late the one of the least
/// basic column outright.
pub(crate) fn first_broken(
    bounds: &Bounds<'_>,
    reaches: &[Reach],
    rows: &[Equation],
    values: &[i128],
    late: bool,
) -> Result<Option<Broken>, Fault>
    requires room { HaveRoom bounds.now reaches.now }
    requires known { AreWithin (columns_of bounds.now.system) rows.now }
    requires values { length values.now ≡ columns_of bounds.now.system }
    ensures none { IfOk result (λ found. IfNone found
        (All (λ equation. (side : Side) → KeepsBound bounds.now values.now equation side
        ⊎ IsLax bounds.now equation.basic side) rows.now)) }
    ensures broken { IfOk result (λ found. IfSome found (IsBroken bounds.now rows.now values.now)) }
    ensures formed { IfErr result (IsOfEquation bounds.now rows.now values.now) }
    ensures bounded { IfErr result (λ fault. IsOfBounded bounds.now fault.place) }
    ensures overflows { IfErr result (λ fault. Overflows fault.excess) }
{
    let mut found = None;
    for at in 0..rows.len() {
        let next = match broken_at(bounds, reaches, rows, values, at, late) {
            Ok(next) => next,
            Err(fault) => return Err(fault),
        };
        found = earlier(found, next);
    }
    Ok(found)
}

// The one that is mended before the other, where there are two.
fn earlier(found: Option<Broken>, next: Option<Broken>) -> Option<Broken>
    ensures of_both { (result ≡ found) ⊎ (result ≡ next) }
    ensures none { IfNone result ((found ≡ None) × (next ≡ None)) }
{
    let Some(first) = found else {
        return next;
    };
    let Some(other) = next else {
        return found;
    };
    if other.is_before(&first) { next } else { found }
}

// The equation at a place, where it is broken.
fn broken_at(
    bounds: &Bounds<'_>,
    reaches: &[Reach],
    rows: &[Equation],
    values: &[i128],
    at: usize,
    late: bool,
) -> Result<Option<Broken>, Fault>
    requires room { HaveRoom bounds.now reaches.now }
    requires known { AreWithin (columns_of bounds.now.system) rows.now }
    requires values { length values.now ≡ columns_of bounds.now.system }
    requires at { at < length rows.now }
    ensures none { IfOk result (λ found. IfNone found
        ((d : AnEquation) (side : Side)
        → KeepsBound bounds.now values.now (slice_index_or rows.now at d) side
        ⊎ IsLax bounds.now (slice_index_or rows.now at d).basic side)) }
    ensures broken { IfOk result (λ found. IfSome found (IsBroken bounds.now rows.now values.now)) }
    ensures formed { IfErr result (IsOfEquation bounds.now rows.now values.now) }
    ensures bounded { IfErr result (λ fault. IsOfBounded bounds.now fault.place) }
    ensures overflows { IfErr result (λ fault. Overflows fault.excess) }
{
    let equation = &rows[at];
    match broken_side(bounds, reaches, values, equation) {
        Ok(Some(side)) => Ok(Some(Broken {
            at,
            basic: equation.basic,
            side,
            weight: weight_of(equation, late),
        })),
        Ok(None) => Ok(None),
        Err(fault) => Err(fault),
    }
}

// What the choice goes by before the basic column.
fn weight_of(equation: &Equation, late: bool) -> usize {
    if late { 0 } else { equation.entries.len() }
}

// The side on which the value of an equation's basic column breaks its bound, unless that is a
// bound on a row that each of its sums keeps.
fn broken_side(
    bounds: &Bounds<'_>,
    reaches: &[Reach],
    values: &[i128],
    equation: &Equation,
) -> Result<Option<Side>, Fault>
    requires known { All
        (λ entry. entry.column < columns_of bounds.now.system) equation.now.entries.items }
    requires room { HaveRoom bounds.now reaches.now }
    requires basic { equation.now.basic < columns_of bounds.now.system }
    requires values { length values.now ≡ columns_of bounds.now.system }
    ensures none { IfOk result (λ found. IfNone found
        ((side : Side) → KeepsBound bounds.now values.now equation.now side
        ⊎ IsLax bounds.now equation.now.basic side)) }
    ensures some { IfOk result (λ found. IfSome found
        (λ side. ¬ KeepsBound bounds.now values.now equation.now side)) }
    ensures tight { IfOk result (λ found. IfSome found
        (λ side. ¬ IsLax bounds.now equation.now.basic side)) }
    ensures formed { IfErr result (λ fault.
        IsFormedAt bounds.now values.now equation.now fault.place fault.excess) }
    ensures bounded { IfErr result (λ fault. IsOfBounded bounds.now fault.place) }
    ensures overflows { IfErr result (λ fault. Overflows fault.excess) }
{
    let basic = bounds.term_at(equation.basic);
    let low = tight_end(bounds, reaches, basic, Side::Ge);
    let high = tight_end(bounds, reaches, basic, Side::Le);
    if !has_bound(low, high) {
        return Ok(None);
    }
    let numerator = match equation.numerator(values) {
        Ok(numerator) => numerator,
        Err(excess) => {
            let place = Place::Value { basic };
            return Err(Fault { place, excess });
        }
    };
    let denominator = equation.denominator;
    match broken_bound(low, high, denominator, numerator) {
        Ok(side) => Ok(side),
        Err(excess) => {
            let bound = excess.y;
            let place = Place::Compare { basic, bound };
            Err(Fault { place, excess })
        }
    }
}

// Which of two bounds is broken.
fn broken_bound(
    low: Option<i128>,
    high: Option<i128>,
    denominator: i128,
    numerator: i128,
) -> Result<Option<Side>, Excess>
    ensures none { IfOk result (λ found. IfNone found
        (Admits Side.Ge low denominator numerator × Admits Side.Le high denominator numerator)) }
    ensures some { IfOk result (λ found. IfSome found
        (λ side. ¬ Admits side (bound_of low high side) denominator numerator)) }
    ensures formed { IfErr result (λ excess. IsProduct low denominator excess
        ⊎ IsProduct high denominator excess) }
    ensures overflows { IfErr result Overflows }
{
    match keeps(Side::Ge, low, denominator, numerator) {
        Ok(true) => {}
        Ok(false) => return Ok(Some(Side::Ge)),
        Err(excess) => return Err(excess),
    }
    match keeps(Side::Le, high, denominator, numerator) {
        Ok(true) => Ok(None),
        Ok(false) => Ok(Some(Side::Le)),
        Err(excess) => Err(excess),
    }
}

// Whether a numerator over a denominator keeps a bound.
fn keeps(
    side: Side,
    bound: Option<i128>,
    denominator: i128,
    numerator: i128,
) -> Result<bool, Excess>
    ensures value { IfOk result (λ yes. IsTrue yes ↔ Admits side bound denominator numerator) }
    ensures formed { IfErr result (IsProduct bound denominator) }
    ensures overflows { IfErr result Overflows }
{
    match bound {
        Some(bound) => match Num::mul(denominator, bound) {
            Ok(product) => Ok(is_within(side, product, numerator)),
            Err(excess) => Err(excess),
        },
        None => Ok(true),
    }
}

// Whether a value stands on that side of a bound.
fn is_within(side: Side, bound: i128, value: i128) -> bool
    ensures { IsTrue result ↔ IsWithin side bound value }
{
    match side {
        Side::Ge => bound <= value,
        Side::Le => value <= bound,
    }
}

// Whether there is one of two bounds.
pub(crate) fn has_bound(low: Option<i128>, high: Option<i128>) -> bool
    ensures some { IsTrue result → IsSome low ⊎ IsSome high }
    ensures none { IsFalse result → (low ≡ None) × (high ≡ None) }
{
    match (low, high) {
        (None, None) => false,
        (Some(_), _) => true,
        (_, Some(_)) => true,
    }
}
