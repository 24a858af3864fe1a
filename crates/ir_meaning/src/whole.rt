ghost use Rattle.std.specs.Prelude.{◌≡◌, ◌-◌, ◌%◌, ◌^◌, ◌<◌, ◌≤◌, pos, neg_ℤ, ◌<ℤ◌, ◌≤ℤ◌, unsigned_abs};
ghost use Rattle.ir_meaning.specs.Whole.{IsWidth, signed, modulo, is_signed};

// `2^exponent`.
#[inline]
pub(crate) fn power(exponent: u32) -> u64
    requires { exponent < 63 }
    ensures { result ≡ 2 ^ exponent }
{
    1 << exponent
}

// What is left of `x` below `2^width`.
#[inline]
pub(crate) fn low_bits(x: u64, width: u32) -> u32
    requires { width ≤ 32 }
    ensures { result ≡ x % 2 ^ width }
{
    (x & (power(width) - 1)) as u32
}

// The signed reading of a number of the width.
#[inline]
pub(crate) fn signed(x: u32, width: u32) -> i64
    requires width { IsWidth width }
    requires number { x < 2 ^ width }
    ensures value { result ≡ signed width x }
    ensures least { neg_ℤ (pos (2 ^ (width - 1))) ≤ℤ result }
    ensures greatest { result <ℤ pos (2 ^ (width - 1)) }
    ensures size { unsigned_abs result ≤ 2 ^ 31 }
{
    if u64::from(x) < power(width - 1) {
        i64::from(x)
    } else {
        i64::from(x) - power(width) as i64
    }
}

// `z` modulo `2^width`.
#[inline]
pub(crate) fn modulo(z: i64, width: u32) -> u32
    requires width { width ≤ 32 }
    requires least { neg_ℤ (pos (2 ^ 32)) ≤ℤ z }
    requires greatest { z ≤ℤ pos (2 ^ 62) }
    ensures { result ≡ modulo width z }
{
    low_bits((z + (1 << 32)) as u64, width)
}

// Whether `z` is a signed number of the width.
#[inline]
pub(crate) fn is_signed(z: i64, width: u32) -> bool
    requires { IsWidth width }
    ensures { result ≡ is_signed width z }
{
    let half = power(width - 1) as i64;
    -half <= z && z < half
}
