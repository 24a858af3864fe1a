ghost use Rattle.std.specs.Prelude.{◌≡◌, ◌≢◌, ℕ, ◌+◌, ◌<◌, ℤ, pos, ◌+ℤ◌, ◌<ℤ◌, ◌≤ℤ◌, not, None, [], ◌∷◌, ◌↔◌, length, All, IfOk, IfErr, IfSome, IfNone, IsSome, IsTrue, IsFalse};
ghost use Rattle.wx_num.specs.Excess.{Overflows};
ghost use Rattle.mix_system.specs.System.{Exists};
ghost use Rattle.bounded_simplex.specs.Combination.{basic_entry, in_order, AreWorked, IsPut, IsPutStep, IsCombineStep, IsRefutation};
ghost use Rattle.tableau_rows.specs.Equation.{total};
ghost use Rattle.bounded_simplex.specs.Point.{NoneContradict};
ghost use Rattle.bounded_simplex.specs.InForce.{in_force, Contradict};
ghost use Rattle.bounded_simplex.specs.Terms.{times_in_column};
ghost use Rattle.tableau_rows.specs.Turning.{turned_number};
ghost use Rattle.bounded_simplex.specs.Refutation.{columns_of, bound_on, hindering, IsHindered, IsPartOf, SaysInForce};

use crate::Bounds;
use crate::combination::Combination;
use mix_system::{Farkas, FarkasPart, FarkasParts, Lit, Side, Term};
use std::alloc::Global;
use tableau_rows::{Entry, Equation};
use wx_base::NoMemory;
use wx_num::{Excess, Num, NumOp};

/// The combination of bounds in force by which an equation refutes them: each column is counted as
/// often as the equation takes it, or, downwards, with the other sign, the basic column first.
///
/// `None` where a bound is wanting, or where these bounds don't contradict each other. So there is
/// one wherever each column stands at the bound that hinders it and these numbers, as often as the
/// equation takes them, add up to less than 0, or, downwards, to more.
pub fn refute(
    alloc: Global,
    bounds: &Bounds<'_>,
    equation: &Equation,
    upwards: bool,
) -> Result<Result<Option<Farkas>, Excess>, NoMemory>
    requires within { All
        (λ entry. entry.column < columns_of bounds.now.system) equation.now.entries.items }
    requires basic { equation.now.basic < columns_of bounds.now.system }
    requires cancels { (var : ℕ)
        → total (times_in_column bounds.now.system var) equation.now.entries.items ≡ pos 0 }
    ensures refutation { IfOk result (λ found. IfOk found (λ farkas. IfSome farkas
        (λ f. IsRefutation bounds.now f.parts))) }
    ensures found { (number : ℕ → ℤ)
        → All (IsHindered bounds.now upwards number) (in_order equation.now)
        → turned_number (not upwards) (total number equation.now.entries.items) <ℤ pos 0
        → IfOk result (λ found. IfOk found IsSome) }
    ensures step { IfOk result (λ found. IfErr found (IsCombineStep bounds.now equation.now)) }
    ensures overflows { IfOk result (λ found. IfErr found Overflows) }
{
    let mut combination = Combination::new(alloc, bounds.system().vars())?;
    let own = own_entry(equation);
    match put_entry(&mut combination, bounds, own, upwards)? {
        Ok(true) => {}
        Ok(false) => return Ok(Ok(None)),
        Err(excess) => return Ok(Err(excess)),
    }
    for entry in &equation.entries {
        if entry.column == equation.basic {
            continue;
        }
        match put_entry(&mut combination, bounds, *entry, upwards)? {
            Ok(true) => {}
            Ok(false) => return Ok(Ok(None)),
            Err(excess) => return Ok(Err(excess)),
        }
    }
    if combination.constant < 0 {
        return Ok(Ok(Some(Farkas {
            parts: combination.parts,
        })));
    }
    Ok(Ok(None))
}

// The entry of an equation's basic column.
fn own_entry(equation: &Equation) -> Entry
    ensures is { result ≡ basic_entry equation.now }
    ensures nonzero { result.coeff ≢ pos 0 }
{
    Entry {
        column: equation.basic,
        coeff: -equation.denominator,
    }
}

// Puts the part of an entry behind the others; false where the bound that it wants isn't there.
fn put_entry(
    combination: &mut Combination,
    bounds: &Bounds<'_>,
    entry: Entry,
    upwards: bool,
) -> Result<Result<bool, Excess>, NoMemory>
    requires within { entry.column < columns_of bounds.now.system }
    requires nonzero { entry.coeff ≢ pos 0 }
    requires count { length combination.old.sums.items ≡ length bounds.now.system.ranges }
    requires worked { AreWorked bounds.now.system.rows combination.old.parts
        combination.old.sums.items combination.old.constant }
    ensures count { length combination.new.sums.items ≡ length combination.old.sums.items }
    ensures put { IfOk result (λ found. IfOk found (λ yes. IsTrue yes
        → IsPut bounds.now upwards entry combination.old.parts combination.new.parts)) }
    ensures worked { IfOk result (λ found. IfOk found (λ yes. IsTrue yes
        → AreWorked bounds.now.system.rows combination.new.parts
        combination.new.sums.items combination.new.constant)) }
    ensures wanting { IfOk result (λ found. IfOk found (λ yes. IsFalse yes
        → bound_on bounds.now entry.column (hindering upwards entry.coeff) ≡ None)) }
    ensures step { IfOk result (λ found. IfErr found
        (IsPutStep bounds.now upwards entry combination.old.parts)) }
    ensures overflows { IfOk result (λ found. IfErr found Overflows) }
{
    let part = match part_of(bounds, entry, upwards) {
        Ok(Some(part)) => part,
        Ok(None) => return Ok(Ok(false)),
        Err(excess) => return Ok(Err(excess)),
    };
    match combination.add(bounds, part)? {
        Ok(()) => Ok(Ok(true)),
        Err(excess) => Ok(Err(excess)),
    }
}

/// The two bounds of a term, each once, where they contradict each other; else `None`.
pub fn contradiction(
    alloc: Global,
    bounds: &Bounds<'_>,
    term: Term,
) -> Result<Option<Farkas>, NoMemory>
    requires { Exists (length bounds.now.system.ranges) (length bounds.now.system.rows) term }
    ensures refutation { IfOk result (λ found. IfSome found
        (λ f. IsRefutation bounds.now f.parts)) }
    ensures none { IfOk result (λ found. IsSome found
        ↔ Contradict (in_force bounds.now term Side.Ge) (in_force bounds.now term Side.Le)) }
{
    let Some(low) = bounds.low(term) else {
        return Ok(None);
    };
    let Some(high) = bounds.high(term) else {
        return Ok(None);
    };
    if low <= high {
        return Ok(None);
    }
    let at_least = FarkasPart {
        lit: Lit {
            term,
            side: Side::Ge,
            bound: low,
        },
        by: 1,
    };
    let at_most = FarkasPart {
        lit: Lit {
            term,
            side: Side::Le,
            bound: high,
        },
        by: 1,
    };
    Ok(Some(Farkas {
        parts: two(alloc, at_least, at_most)?,
    }))
}

/// The two bounds of the first term whose bounds contradict each other, `None` where there is no
/// such term.
pub fn first_contradiction(alloc: Global, bounds: &Bounds<'_>) -> Result<Option<Farkas>, NoMemory>
    ensures refutation { IfOk result (λ found. IfSome found
        (λ f. IsRefutation bounds.now f.parts)) }
    ensures none { IfOk result (λ found. IfNone found (NoneContradict bounds.now)) }
{
    for column in 0..bounds.columns() {
        match contradiction(alloc, bounds, bounds.term_at(column))? {
            Some(farkas) => return Ok(Some(farkas)),
            None => {}
        }
    }
    Ok(None)
}

// The list of two parts.
fn two(alloc: Global, first: FarkasPart, second: FarkasPart) -> Result<FarkasParts, NoMemory>
    ensures { IfOk result (λ parts. parts ≡ first ∷ second ∷ []) }
{
    let mut parts = FarkasParts::new(alloc);
    parts.push(first)?;
    parts.push(second)?;
    Ok(parts)
}

// The part of an entry, None where the bound that it wants isn't there.
fn part_of(bounds: &Bounds<'_>, entry: Entry, upwards: bool) -> Result<Option<FarkasPart>, Excess>
    requires within { entry.column < columns_of bounds.now.system }
    requires nonzero { entry.coeff ≢ pos 0 }
    ensures part { IfOk result (λ found. IfSome found (IsPartOf bounds.now upwards entry)) }
    ensures none { IfOk result (λ found. IfNone found
        (bound_on bounds.now entry.column (hindering upwards entry.coeff) ≡ None)) }
    ensures step { IfErr result (λ excess.
        excess ≡ record { op = NumOp.Minus; x = pos 0; y = entry.coeff }) }
    ensures overflows { IfErr result Overflows }
{
    let term = bounds.term_at(entry.column);
    if entry.coeff > 0 {
        let side = if upwards { Side::Le } else { Side::Ge };
        return Ok(part_at(bounds, term, side, entry.coeff));
    }
    let side = if upwards { Side::Ge } else { Side::Le };
    match Num::sub(0, entry.coeff) {
        Ok(by) => Ok(part_at(bounds, term, side, by)),
        Err(excess) => Err(excess),
    }
}

// The bound in force on a term's side, so many times.
fn part_at(bounds: &Bounds<'_>, term: Term, side: Side, by: i128) -> Option<FarkasPart>
    requires exists { Exists (length bounds.now.system.ranges)
        (length bounds.now.system.rows) term }
    requires once { pos 1 ≤ℤ by }
    ensures term { IfSome result (λ part. part.lit.term ≡ term) }
    ensures side { IfSome result (λ part. part.lit.side ≡ side) }
    ensures by { IfSome result (λ part. part.by ≡ by) }
    ensures says { IfSome result (λ part. SaysInForce bounds.now part.lit) }
    ensures none { IfNone result (in_force bounds.now term side ≡ None) }
{
    match bounds.end(term, side) {
        Some(bound) => Some(FarkasPart {
            lit: Lit { term, side, bound },
            by,
        }),
        None => None,
    }
}
