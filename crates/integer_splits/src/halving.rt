ghost use Rattle.std.specs.Prelude.{◌≡◌, ◌⊎◌, ◌+◌, ◌<◌, pos, ◌+ℤ◌, ◌-ℤ◌, ◌≤ℤ◌, ◌<ℤ◌, None, length, IfSome, IfNone};
ghost use Rattle.mix_system.specs.Calm.{IsSmall};
ghost use Rattle.bounded_simplex.specs.Combination.{AreSmall};
ghost use Rattle.integer_splits.specs.Halving.{IsHalving};
ghost use Rattle.integer_splits.specs.Work.{IsNarrow, AreNarrow};

use bounded_simplex::Simplex;
use mix_system::Term;
use wx_num::Num;

/// A variable whose range in force is to be halved, the number at which it is, and how much wider
/// than one number it is.
#[derive(Clone, Copy, Debug)]
pub(crate) struct Halving {
    pub(crate) var: u32,
    pub(crate) at: i128,
    pub(crate) width: i128,
}

/// The halving of the widest range in force, `None` where none has two numbers.
pub(crate) fn widest(simplex: &Simplex<'_>) -> Option<Halving>
    requires small { AreSmall simplex.now.bounds }
    ensures some { IfSome result (λ h. IsHalving simplex.now.bounds h.var h.at) }
    ensures none { IfNone result (AreNarrow simplex.now.bounds) }
{
    let mut widest = None;
    for var in 0..simplex.system().vars() {
        widest = wider(widest, halving_of(simplex, var));
    }
    widest
}

/// The halving of a variable's range in force, `None` where it has no two numbers.
pub(crate) fn halving_of(simplex: &Simplex<'_>, var: u32) -> Option<Halving>
    requires within { var < length simplex.now.bounds.system.ranges }
    requires small { AreSmall simplex.now.bounds }
    ensures some { IfSome result (λ h. IsHalving simplex.now.bounds h.var h.at) }
    ensures none { IfNone result (IsNarrow simplex.now.bounds var) }
{
    let term = Term::Var(var);
    let Some(low) = simplex.low(term) else {
        return None;
    };
    let Some(high) = simplex.high(term) else {
        return None;
    };
    if high <= low {
        return None;
    }
    let at = middle(low, high);
    let width = high - low;
    Some(Halving { var, at, width })
}

// The number in the middle of two, rounded down.
fn middle(low: i128, high: i128) -> i128
    requires low_small { IsSmall low }
    requires high_small { IsSmall high }
    requires wide { low <ℤ high }
    ensures lower { low ≤ℤ result }
    ensures upper { result <ℤ high }
    ensures low_half { ((result -ℤ low) +ℤ (result -ℤ low)) ≤ℤ (high -ℤ low) }
    ensures high_half { (high -ℤ low) ≤ℤ ((result -ℤ low) +ℤ (result -ℤ low) +ℤ pos 1) }
{
    Num::floor_div(low + high, 2)
}

// The one of the greater width.
fn wider(one: Option<Halving>, other: Option<Halving>) -> Option<Halving>
    ensures of_both { (result ≡ one) ⊎ (result ≡ other) }
    ensures none { IfNone result ((one ≡ None) × (other ≡ None)) }
{
    let Some(first) = one else {
        return other;
    };
    let Some(second) = other else {
        return one;
    };
    if first.width < second.width {
        other
    } else {
        one
    }
}

/// The one of the smaller width.
pub(crate) fn narrower(one: Option<Halving>, other: Option<Halving>) -> Option<Halving>
    ensures of_both { (result ≡ one) ⊎ (result ≡ other) }
{
    let Some(first) = one else {
        return other;
    };
    let Some(second) = other else {
        return one;
    };
    if second.width < first.width {
        other
    } else {
        one
    }
}
