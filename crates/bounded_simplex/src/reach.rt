ghost use Rattle.std.specs.Prelude.{◌≡◌, ◌⊎◌, ◌↔◌, ◌<◌, ◌<ℤ◌, ◌≤ℤ◌, ℕ, ℤ, pos, true, false, None, Some, [], length, IfOk, IfErr, OnOk, IfSome, IfNone, IsSome, IsTrue, IsFalse, All, slice_index_or};
ghost use Rattle.wx_num.specs.Excess.{Overflows};
ghost use Rattle.mix_system.specs.Fits.{IsInRange};
ghost use Rattle.mix_system.specs.Row.{number_at};
ghost use Rattle.mix_system.specs.System.{Exists, IsRange, IsWellFormed};
ghost use Rattle.bounded_simplex.specs.InForce.{in_force};
ghost use Rattle.bounded_simplex.specs.Lax.{end_of, extreme_at, IsLaxAt};
ghost use Rattle.bounded_simplex.specs.Refutation.{columns_of};
ghost use Rattle.bounded_simplex.specs.Reach.{AreAtEnds, IsEndStep, IsReachOf, AreReaches, HasRoom, IsFree, HaveRoom, IsBeyondRow, AllKeep, IsAtMost, IsAtLeast};

use crate::Bounds;
use crate::broken::has_bound;
use crate::entering::hindering_side;
use mix_system::{Part, Side, System, Term};
use std::alloc::Global;
use wx_base::NoMemory;
use wx_num::{Excess, Num};

/// The least and the greatest sum of a row over the ranges of its variables, where they are known.
#[derive(Clone, Copy, Debug)]
pub struct Reach {
    pub least: Option<i128>,
    pub greatest: Option<i128>,
}

/// A row whose bounds can't be held against its sums over the ranges, or one of them lies beyond.
#[derive(Clone, Copy, Debug)]
pub(crate) enum Beyond {
    /// Its greatest sum, or its least, leaves 128 bits.
    Unknown {
        row: u32,
        upwards: bool,
        excess: Excess,
    },
    /// Its lower bound lies above the greatest sum, or its upper bound below the least.
    Broken {
        row: u32,
        upwards: bool,
    },
}

/// The reach of each row, of which nothing is known.
pub(crate) fn unknown_reaches(alloc: Global, system: &System) -> Result<Vec<Reach>, NoMemory>
    ensures { IfOk result (λ reaches. AreReaches system.now reaches.items) }
{
    let mut reaches = Vec::with_capacity(alloc, system.rows() as usize)?;
    for _row in 0..system.rows() {
        reaches.push(Reach {
            least: None,
            greatest: None,
        })?;
    }
    Ok(reaches)
}

/// Looks at the bounds of each row. From then on both sums of each row that has a bound are known,
/// and no bound lies beyond them.
pub(crate) fn look_at_rows(bounds: &Bounds<'_>, reaches: &mut Vec<Reach>) -> Result<(), Beyond>
    requires { AreReaches bounds.now.system reaches.old.items }
    ensures reached { AreReaches bounds.now.system reaches.new.items }
    ensures room { OnOk result (HaveRoom bounds.now reaches.new.items) }
    ensures beyond { IfErr result (IsBeyondRow bounds.now) }
{
    let rows = bounds.columns() - bounds.system().vars();
    for row in 0..rows {
        match look_at_row(bounds, row, reaches[row as usize]) {
            Ok(reach) => reaches[row as usize] = reach,
            Err(beyond) => return Err(beyond),
        }
    }
    Ok(())
}

// What is known of a row's sums after a look at its bounds.
fn look_at_row(bounds: &Bounds<'_>, row: u32, reach: Reach) -> Result<Reach, Beyond>
    requires within { row < length bounds.now.system.rows }
    requires formed { IsWellFormed bounds.now.system }
    requires reached { IsReachOf bounds.now.system row reach }
    ensures reached { IfOk result (IsReachOf bounds.now.system row) }
    ensures room { IfOk result (λ reach. IsFree bounds.now row ⊎ HasRoom bounds.now row reach) }
    ensures beyond { IfErr result (IsBeyondRow bounds.now) }
{
    let (low, high) = (bounds.low(Term::Row(row)), bounds.high(Term::Row(row)));
    if !has_bound(low, high) {
        return Ok(reach);
    }
    let least = match known_sum(bounds.system(), row, false, reach.least) {
        Ok(least) => least,
        Err(excess) => {
            let upwards = false;
            return Err(Beyond::Unknown {
                row,
                upwards,
                excess,
            });
        }
    };
    let greatest = match known_sum(bounds.system(), row, true, reach.greatest) {
        Ok(greatest) => greatest,
        Err(excess) => {
            let upwards = true;
            return Err(Beyond::Unknown {
                row,
                upwards,
                excess,
            });
        }
    };
    if is_above(low, greatest) {
        let upwards = true;
        return Err(Beyond::Broken { row, upwards });
    }
    if is_below(high, least) {
        let upwards = false;
        return Err(Beyond::Broken { row, upwards });
    }
    Ok(Reach {
        least: Some(least),
        greatest: Some(greatest),
    })
}

fn is_above(bound: Option<i128>, sum: i128) -> bool
    ensures yes { IsTrue result → (b : ℤ) × ((bound ≡ Some b) × (sum <ℤ b)) }
    ensures no { IsFalse result → (b : ℤ) → bound ≡ Some b → b ≤ℤ sum }
{
    match bound {
        Some(bound) => sum < bound,
        None => false,
    }
}

fn is_below(bound: Option<i128>, sum: i128) -> bool
    ensures yes { IsTrue result → (b : ℤ) × ((bound ≡ Some b) × (b <ℤ sum)) }
    ensures no { IsFalse result → (b : ℤ) → bound ≡ Some b → sum ≤ℤ b }
{
    match bound {
        Some(bound) => bound < sum,
        None => false,
    }
}

// The greatest sum of a row, or the least, as it is known or formed now.
fn known_sum(system: &System, row: u32, upwards: bool, known: Option<i128>) -> Result<i128, Excess>
    requires within { row < length system.now.rows }
    requires known { (sum : ℤ) → known ≡ Some sum → sum ≡ extreme_at system.now row upwards }
    ensures sum { IfOk result (λ sum. sum ≡ extreme_at system.now row upwards) }
    ensures step { IfErr result (IsEndStep system.now.ranges upwards
        (slice_index_or system.now.rows row [])) }
    ensures overflows { IfErr result Overflows }
{
    match known {
        Some(sum) => Ok(sum),
        None => sum_at_ends(system, row, upwards),
    }
}

// The greatest sum of a row over the ranges, or the least, or the step of it that leaves 128 bits.
fn sum_at_ends(system: &System, row: u32, upwards: bool) -> Result<i128, Excess>
    requires { row < length system.now.rows }
    ensures sum { IfOk result (λ sum. sum ≡ extreme_at system.now row upwards) }
    ensures step { IfErr result (IsEndStep system.now.ranges upwards
        (slice_index_or system.now.rows row [])) }
    ensures overflows { IfErr result Overflows }
{
    let mut sum = 0;
    let parts = system.row(row);
    for part in parts {
        let product = Num::mul(part.coeff, end_at(system, *part, upwards))?;
        sum = Num::add(sum, product)?;
    }
    Ok(sum)
}

// The end of its variable's range at which a part's product is greatest, or least.
fn end_at(system: &System, part: Part, upwards: bool) -> i128
    requires { part.var < length system.now.ranges }
    ensures end { result ≡ end_of system.now.ranges upwards part }
    ensures range { IsRange (slice_index_or system.now.ranges part.var (pos 0, pos 0)) }
{
    let (low, high) = system.range(part.var);
    match hindering_side(upwards, part.coeff) {
        Side::Le => high,
        Side::Ge => low,
    }
}

/// Puts each variable of a row to the end of its range at which the row's sum is greatest, or
/// least.
pub(crate) fn put_at_ends(values: &mut Vec<i128>, system: &System, row: u32, upwards: bool)
    requires within { row < length system.now.rows }
    requires count { length values.old.items ≡ columns_of system.now }
    requires in_range { (var : ℕ) → var < length system.now.ranges
        → IsInRange (slice_index_or system.now.ranges var (pos 0, pos 0))
        (number_at values.old.items var) }
    ensures count { length values.new.items ≡ length values.old.items }
    ensures in_range { (var : ℕ) → var < length system.now.ranges
        → IsInRange (slice_index_or system.now.ranges var (pos 0, pos 0))
        (number_at values.new.items var) }
    ensures ends { AreAtEnds system.now.ranges upwards (number_at values.new.items)
        (slice_index_or system.now.rows row []) }
{
    let parts = system.row(row);
    for part in parts {
        values[part.var as usize] = end_at(system, *part, upwards);
    }
}

/// The bound in force on a term's side, unless each sum of a row over the ranges keeps it.
pub(crate) fn tight_end(
    bounds: &Bounds<'_>,
    reaches: &[Reach],
    term: Term,
    side: Side,
) -> Option<i128>
    requires exists { Exists (length bounds.now.system.ranges)
        (length bounds.now.system.rows) term }
    requires room { HaveRoom bounds.now reaches.now }
    ensures some { IfSome result (λ bound. in_force bounds.now term side ≡ Some bound) }
    ensures tight { IfSome result (λ bound. ¬ IsLaxAt bounds.now.system term side bound) }
    ensures none { IfNone result ((bound : ℤ) → in_force bounds.now term side ≡ Some bound
        → IsLaxAt bounds.now.system term side bound) }
{
    let bound = bounds.end(term, side)?;
    match term {
        Term::Var(_var) => Some(bound),
        Term::Row(row) => tight(reaches[row as usize], side, bound),
    }
}

// A bound on a row, unless each of its sums keeps it.
fn tight(reach: Reach, side: Side, bound: i128) -> Option<i128>
    ensures some { IfSome result (λ found. found ≡ bound) }
    ensures tight { IsSome result → ¬ AllKeep reach side bound }
    ensures none { IfNone result (AllKeep reach side bound) }
{
    let is_lax = match side {
        Side::Ge => is_at_most(bound, reach.least),
        Side::Le => is_at_least(bound, reach.greatest),
    };
    if is_lax { None } else { Some(bound) }
}

fn is_at_most(bound: i128, sum: Option<i128>) -> bool
    ensures { IsTrue result ↔ IsAtMost bound sum }
{
    match sum {
        Some(sum) => bound <= sum,
        None => false,
    }
}

fn is_at_least(bound: i128, sum: Option<i128>) -> bool
    ensures { IsTrue result ↔ IsAtLeast bound sum }
{
    match sum {
        Some(sum) => sum <= bound,
        None => false,
    }
}
