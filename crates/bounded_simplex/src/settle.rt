ghost use Rattle.std.specs.Prelude.{◌≡◌, ◌<◌, ◌⊎◌, ◌≤ℤ◌, ℕ, pos, length};
ghost use Rattle.mix_system.specs.Row.{number_at};
ghost use Rattle.mix_system.specs.declared.literal.Side.TheVariants.{Le, Ge};
ghost use Rattle.bounded_simplex.specs.InForce.{Contradict};
ghost use Rattle.bounded_simplex.specs.Point.{Admits, NoneContradict, AreInBounds};
ghost use Rattle.bounded_simplex.specs.Refutation.{columns_of, bound_on};
ghost use Rattle.bounded_simplex.specs.Settled.{at_bound, IsMoved, StaysBetween};

use crate::Bounds;

/// Moves the value of each column to the nearer one of its bounds in force, where it lies outside.
pub(crate) fn settle(bounds: &Bounds<'_>, values: &mut Vec<i128>)
    requires count { length values.old.items ≡ columns_of bounds.now.system }
    requires apart { NoneContradict bounds.now }
    ensures in_bounds { AreInBounds bounds.now values.new.items }
    ensures kept { (column : ℕ) → column < length values.old.items
        → StaysBetween bounds.now column (number_at values.old.items column)
        (number_at values.new.items column) }
    ensures as_many { length values.new.items ≡ length values.old.items }
{
    for column in 0..bounds.columns() {
        let value = values[column as usize];
        values[column as usize] = nearest_in_bounds(bounds, column, value);
    }
}

// The number nearest to a value that keeps a column's bounds.
fn nearest_in_bounds(bounds: &Bounds<'_>, column: u32, value: i128) -> i128
    requires within { column < columns_of bounds.now.system }
    requires apart { ¬ Contradict (bound_on bounds.now column Ge) (bound_on bounds.now column Le) }
    ensures low { Admits Ge (bound_on bounds.now column Ge) (pos 1) result }
    ensures high { Admits Le (bound_on bounds.now column Le) (pos 1) result }
    ensures kept { StaysBetween bounds.now column value result }
{
    let term = bounds.term_at(column);
    nearest(value, bounds.low(term), bounds.high(term))
}

// The number nearest to a value that keeps two bounds.
fn nearest(value: i128, low: Option<i128>, high: Option<i128>) -> i128
    requires { ¬ Contradict low high }
    ensures low { Admits Ge low (pos 1) result }
    ensures high { Admits Le high (pos 1) result }
    ensures kept { IsMoved low high value result }
{
    match (low, high) {
        (None, None) => value,
        (Some(low), None) => greater(low, value),
        (None, Some(high)) => lesser(high, value),
        (Some(low), Some(high)) => greater(low, lesser(high, value)),
    }
}

fn greater(one: i128, other: i128) -> i128
    ensures of_both { (result ≡ one) ⊎ (result ≡ other) }
    ensures one { one ≤ℤ result }
    ensures other { other ≤ℤ result }
{
    if one < other { other } else { one }
}

fn lesser(one: i128, other: i128) -> i128
    ensures of_both { (result ≡ one) ⊎ (result ≡ other) }
    ensures one { result ≤ℤ one }
    ensures other { result ≤ℤ other }
{
    if one < other { one } else { other }
}

/// Gives a column the value of a bound, where there is one.
pub(crate) fn put_at_bound(values: &mut Vec<i128>, column: u32, bound: Option<i128>)
    requires { column < length values.old.items }
    ensures { values.new.items ≡ at_bound values.old.items column bound }
{
    if let Some(bound) = bound {
        values[column as usize] = bound;
    }
}
