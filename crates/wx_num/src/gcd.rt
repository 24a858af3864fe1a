//! Greatest common divisors by halving and subtracting (J. Stein, Computational problems associated with Racah algebra, 1967).

ghost use Rattle.std.specs.Prelude.{◌≡◌, ◌≢◌, ◌%◌};
ghost use Rattle.std.specs.Int.{IsGcd};

/// The greatest number of 64 bits.
const WORD: u128 = u64::MAX as u128;

/// The greatest common divisor; of 0 and 0 it is 0.
///
/// Numbers below 2^64 are worked in 64 bits. Where one of the two is, a remainder brings the other there too.
pub(crate) fn gcd(x: u128, y: u128) -> u128
    ensures { IsGcd x y result }
{
    if x <= WORD && y <= WORD {
        return gcd_of_words(x as u64, y as u64) as u128;
    }
    if x == 0 {
        return y;
    }
    if y == 0 {
        return x;
    }
    if x <= WORD {
        return gcd_of_words(x as u64, (y % x) as u64) as u128;
    }
    if y <= WORD {
        return gcd_of_words(y as u64, (x % y) as u64) as u128;
    }
    gcd_of_two(x, y)
}

fn gcd_of_words(x: u64, y: u64) -> u64
    ensures { IsGcd x y result }
{
    if x == 0 {
        return y;
    }
    if y == 0 {
        return x;
    }
    let x_twos = x.trailing_zeros();
    let y_twos = y.trailing_zeros();
    gcd_with_odd_word(x >> x_twos, y >> y_twos) << x_twos.min(y_twos)
}

/// The same of an odd number and any other: all twos of the other are left out, then the smaller is taken from the greater.
fn gcd_with_odd_word(x: u64, y: u64) -> u64
    requires { x % 2 ≡ 1 }
    ensures { IsGcd x y result }
{
    let mut odd = x;
    let mut rest = y;
    while rest != 0 {
        let other = rest >> rest.trailing_zeros();
        rest = odd.abs_diff(other);
        odd = odd.min(other);
    }
    odd
}

fn gcd_of_two(x: u128, y: u128) -> u128
    requires x { x ≢ 0 }
    requires y { y ≢ 0 }
    ensures { IsGcd x y result }
{
    let x_twos = x.trailing_zeros();
    let y_twos = y.trailing_zeros();
    gcd_with_odd(x >> x_twos, y >> y_twos) << x_twos.min(y_twos)
}

/// As [`gcd_with_odd_word`].
fn gcd_with_odd(x: u128, y: u128) -> u128
    requires { x % 2 ≡ 1 }
    ensures { IsGcd x y result }
{
    let mut odd = x;
    let mut rest = y;
    while rest != 0 {
        let other = rest >> rest.trailing_zeros();
        rest = odd.abs_diff(other);
        odd = odd.min(other);
    }
    odd
}
