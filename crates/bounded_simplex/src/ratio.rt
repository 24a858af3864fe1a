ghost use Rattle.std.specs.Prelude.{◌≡◌, ◌<◌, ◌^◌, pos, ◌*ℤ◌, ◌≤ℤ◌, unsigned_abs};
ghost use Rattle.std.specs.Int.{◌∣◌, IsGcd};

use wx_num::Num;

/// A number over another, in lowest terms. The denominator is at least 1.
#[derive(Clone, Copy, Debug, PartialEq, Eq)]
pub struct Ratio {
    pub num: i128,
    pub den: i128,
    pub ghost positive: { pos 1 ≤ℤ den },
    pub ghost lowest: { IsGcd (unsigned_abs num) (unsigned_abs den) 1 },
}

impl Ratio {
    /// The ratio of two numbers in lowest terms.
    pub(crate) fn reduced(numerator: i128, denominator: i128) -> Ratio
        requires { pos 1 ≤ℤ denominator }
        ensures { result.num *ℤ denominator ≡ numerator *ℤ result.den }
    {
        let divisor = Num::gcd(numerator.unsigned_abs(), denominator.unsigned_abs());
        let num = exact_quotient(numerator, divisor);
        let den = exact_quotient(denominator, divisor);
        Ratio { num, den }
    }
}

// A number over one that divides it.
fn exact_quotient(number: i128, divisor: u128) -> i128
    requires small { divisor < 2 ^ 127 }
    requires positive { 0 < divisor }
    requires divides { divisor ∣ unsigned_abs number }
    ensures { number ≡ result *ℤ pos divisor }
{
    number / divisor as i128
}
