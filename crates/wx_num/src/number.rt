ghost use Rattle.std.specs.Prelude.{◌≡◌, ◌↔◌, ℕ, pos, ◌+ℤ◌, ◌-ℤ◌, ◌*ℤ◌, ◌<ℤ◌, ◌≤ℤ◌, IsOk, IfOk, IfErr, FitsSigned};
ghost use Rattle.std.specs.Int.{IsGcd, w128};

use crate::{Excess, NumOp, gcd};

/// Arithmetic on whole numbers of 128 bits, none of which wraps or stops.
pub struct Num;

impl Num {
    /// The sum `x + y`, or an [`Excess`] exactly where it lies outside `i128`.
    pub fn add(x: i128, y: i128) -> Result<i128, Excess>
        ensures value { IfOk result (λ sum. sum ≡ x +ℤ y) }
        ensures within { IsOk result ↔ FitsSigned w128 (x +ℤ y) }
        ensures excess { IfErr result
            (λ excess. excess ≡ record { op = NumOp.Plus; x = x; y = y }) }
    {
        x.checked_add(y).ok_or(Excess {
            op: NumOp::Plus,
            x,
            y,
        })
    }

    /// The difference `x - y`, or an [`Excess`] exactly where it lies outside `i128`.
    pub fn sub(x: i128, y: i128) -> Result<i128, Excess>
        ensures value { IfOk result (λ difference. difference ≡ x -ℤ y) }
        ensures within { IsOk result ↔ FitsSigned w128 (x -ℤ y) }
        ensures excess { IfErr result
            (λ excess. excess ≡ record { op = NumOp.Minus; x = x; y = y }) }
    {
        x.checked_sub(y).ok_or(Excess {
            op: NumOp::Minus,
            x,
            y,
        })
    }

    /// The product `x * y`, or an [`Excess`] exactly where it lies outside `i128`.
    pub fn mul(x: i128, y: i128) -> Result<i128, Excess>
        ensures value { IfOk result (λ product. product ≡ x *ℤ y) }
        ensures within { IsOk result ↔ FitsSigned w128 (x *ℤ y) }
        ensures excess { IfErr result
            (λ excess. excess ≡ record { op = NumOp.Times; x = x; y = y }) }
    {
        if let (Ok(x), Ok(y)) = (i64::try_from(x), i64::try_from(y)) {
            return Ok(x as i128 * y as i128);
        }
        x.checked_mul(y).ok_or(Excess {
            op: NumOp::Times,
            x,
            y,
        })
    }

    /// The floor of `x / y`: the greatest whole number whose product with `y` is at most `x`, also for a negative `x`.
    pub fn floor_div(x: i128, y: i128) -> i128
        requires { pos 0 <ℤ y }
        ensures at_most { (result *ℤ y) ≤ℤ x }
        ensures greatest { x <ℤ ((result +ℤ pos 1) *ℤ y) }
    {
        x.div_euclid(y)
    }

    /// The greatest common divisor, in the order of divisibility: it divides both numbers, and each number that divides both divides it.
    /// The greatest common divisor is 0 for 0 and 0 alone.
    pub fn gcd(x: u128, y: u128) -> u128
        ensures greatest { IsGcd x y result }
        ensures zero { (result ≡ 0) ↔ ((x ≡ 0) × (y ≡ 0)) }
    {
        gcd::gcd(x, y)
    }
}
