ghost use Rattle.std.specs.Prelude.{◌≡◌, ◌≢◌, ◌⊎◌, ◌<◌, None, pos, length, All, IfSome, IfNone, IsTrue, IsFalse};
ghost use Rattle.mix_system.specs.Row.{number_at};
ghost use Rattle.tableau_rows.specs.Substitution.{taken};
ghost use Rattle.bounded_simplex.specs.Refutation.{columns_of, hindering, IsHindered};

use crate::Bounds;
use crate::uses::Uses;
use mix_system::Side;
use tableau_rows::{Entry, Equation};

/// A column that can move another one, and how dear it is to have it enter the basis.
#[derive(Clone, Copy, Debug)]
struct Helper {
    column: u32,
    uses: u32,
    bits: u32,
}

impl Helper {
    // The column of an entry. Without a guide all are as dear.
    fn of(entry: Entry, guide: Option<&Uses>) -> Helper
        ensures { result.column ≡ entry.column }
    {
        let column = entry.column;
        match guide {
            Some(uses) => Helper {
                column,
                uses: uses.of(column),
                bits: 128 - entry.coeff.unsigned_abs().leading_zeros(),
            },
            None => Helper {
                column,
                uses: 0,
                bits: 0,
            },
        }
    }

    // Whether it stands in fewer equations, or has the shorter coefficient, or the lower number.
    fn is_before(&self, other: &Helper) -> bool {
        if self.uses != other.uses {
            return self.uses < other.uses;
        }
        if self.bits != other.bits {
            return self.bits < other.bits;
        }
        self.column < other.column
    }
}

/// A column outside the basis that can move the basic column of an equation upwards, or downwards:
/// the one that the guide says stands in the fewest equations, with the shortest coefficient among
/// equals; without a guide the least.
pub(crate) fn entering(
    bounds: &Bounds<'_>,
    values: &[i128],
    equation: &Equation,
    upwards: bool,
    guide: Option<&Uses>,
) -> Option<u32>
    requires known { All
        (λ entry. entry.column < columns_of bounds.now.system) equation.now.entries.items }
    requires values { length values.now ≡ columns_of bounds.now.system }
    ensures none { IfNone result (All (λ entry. (entry.column ≡ equation.now.basic)
        ⊎ IsHindered bounds.now upwards (number_at values.now) entry) equation.now.entries.items) }
    ensures other { IfSome result (λ column. equation.now.basic ≢ column) }
    ensures taken { IfSome result (λ column. taken equation.now column ≢ pos 0) }
{
    let mut found = None;
    for entry in &equation.entries {
        let next = helper_of(bounds, values, equation.basic, *entry, upwards, guide);
        found = cheaper(found, next);
    }
    match found {
        Some(helper) => Some(helper.column),
        None => None,
    }
}

// The cheaper one, where there are two.
fn cheaper(found: Option<Helper>, next: Option<Helper>) -> Option<Helper>
    ensures of_both { (result ≡ found) ⊎ (result ≡ next) }
    ensures none { IfNone result ((found ≡ None) × (next ≡ None)) }
{
    let Some(first) = found else {
        return next;
    };
    let Some(other) = next else {
        return found;
    };
    if other.is_before(&first) { next } else { found }
}

// The column of an entry, None where it is the basic one, or is hindered by its bound.
fn helper_of(
    bounds: &Bounds<'_>,
    values: &[i128],
    basic: u32,
    entry: Entry,
    upwards: bool,
    guide: Option<&Uses>,
) -> Option<Helper>
    requires known { entry.column < columns_of bounds.now.system }
    requires values { length values.now ≡ columns_of bounds.now.system }
    ensures none { IfNone result ((entry.column ≡ basic)
        ⊎ IsHindered bounds.now upwards (number_at values.now) entry) }
    ensures column { IfSome result (λ found. found.column ≡ entry.column) }
    ensures other { IfSome result (λ found. basic ≢ found.column) }
{
    if stays(bounds, values, basic, entry, upwards) {
        return None;
    }
    Some(Helper::of(entry, guide))
}

// Whether a column is the basic one, or is hindered by its bound.
fn stays(bounds: &Bounds<'_>, values: &[i128], basic: u32, entry: Entry, upwards: bool) -> bool
    requires known { entry.column < columns_of bounds.now.system }
    requires values { length values.now ≡ columns_of bounds.now.system }
    ensures stays { IsTrue result
        → (entry.column ≡ basic) ⊎ IsHindered bounds.now upwards (number_at values.now) entry }
    ensures moves { IsFalse result → basic ≢ entry.column }
{
    if entry.column == basic {
        return true;
    }
    let side = hindering_side(upwards, entry.coeff);
    match bounds.end(bounds.term_at(entry.column), side) {
        Some(bound) => bound == values[entry.column as usize],
        None => false,
    }
}

// The side of the bound that hinders a column.
pub(crate) fn hindering_side(upwards: bool, coeff: i128) -> Side
    ensures { result ≡ hindering upwards coeff }
{
    if (coeff > 0) == upwards {
        return Side::Le;
    }
    Side::Ge
}
