ghost use Rattle.std.specs.Prelude.{◌≡◌};
ghost use Rattle.ir_meaning.specs.Value.{on_number};
ghost use Rattle.ir_runs.specs.Values.{is_between, is_in_range, ranged};

use ir_meaning::Val;
use ll_tree::Range;

// A value, or poison where it is a number outside the range.
#[inline]
pub(crate) fn ranged_value(range: Option<Range>, val: Val) -> Val
    ensures { result ≡ on_number (ranged range) val }
{
    match val {
        Val::Poison => Val::Poison,
        Val::Num(number) => ranged(range, number),
    }
}

// A number, or poison where it is outside the range.
#[inline]
pub(crate) fn ranged(range: Option<Range>, number: u32) -> Val
    ensures { result ≡ ranged range number }
{
    if is_in_range(range, number) {
        Val::Num(number)
    } else {
        Val::Poison
    }
}

/// Whether a number lies in the range, where there is one.
#[inline]
pub fn is_in_range(range: Option<Range>, number: u32) -> bool
    ensures { result ≡ is_in_range range number }
{
    match range {
        None => true,
        Some(range) => is_between(range, number),
    }
}

#[inline]
fn is_between(range: Range, number: u32) -> bool
    ensures { result ≡ is_between range number }
{
    if range.hi < range.lo {
        range.lo <= number || number < range.hi
    } else {
        range.lo <= number && number < range.hi
    }
}
