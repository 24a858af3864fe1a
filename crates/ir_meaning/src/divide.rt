ghost use Rattle.std.specs.Prelude.{◌≡◌, ◌^◌, ◌<◌, ◌≤◌, unsigned_abs};
ghost use Rattle.ir_meaning.specs.Whole.{IsWidth, quotient, remainder};
ghost use Rattle.ir_meaning.specs.Rows.{udiv_of, sdiv_of, srem_of};

use crate::Val;
use crate::whole::{modulo, signed};
use ll_tree::Flags;

#[inline]
pub(crate) fn udiv(flags: &Flags, a: u32, c: u32) -> Val
    requires { 0 < c }
    ensures { result ≡ udiv_of flags.now a c }
{
    if flags.exact && a % c != 0 {
        Val::Poison
    } else {
        Val::Num(a / c)
    }
}

// The quotient of the signed readings, rounded towards zero.
#[inline]
fn quotient(width: u32, a: u32, c: u32) -> i64
    requires width { IsWidth width }
    requires dividend { a < 2 ^ width }
    requires divisor { c < 2 ^ width }
    requires nonzero { 0 < c }
    ensures value { result ≡ quotient width a c }
    ensures size { unsigned_abs result ≤ 2 ^ 31 }
{
    signed(a, width) / signed(c, width)
}

// What the quotient leaves of the signed reading.
#[inline]
fn remainder(width: u32, a: u32, c: u32) -> i64
    requires width { IsWidth width }
    requires dividend { a < 2 ^ width }
    requires divisor { c < 2 ^ width }
    requires nonzero { 0 < c }
    ensures value { result ≡ remainder width a c }
    ensures size { unsigned_abs result ≤ 2 ^ 31 }
{
    signed(a, width) % signed(c, width)
}

#[inline]
pub(crate) fn sdiv(flags: &Flags, width: u32, a: u32, c: u32) -> Val
    requires width { IsWidth width }
    requires dividend { a < 2 ^ width }
    requires divisor { c < 2 ^ width }
    requires nonzero { 0 < c }
    ensures { result ≡ sdiv_of flags.now width a c }
{
    if flags.exact && remainder(width, a, c) != 0 {
        Val::Poison
    } else {
        Val::Num(modulo(quotient(width, a, c), width))
    }
}

#[inline]
pub(crate) fn srem(width: u32, a: u32, c: u32) -> Val
    requires width { IsWidth width }
    requires dividend { a < 2 ^ width }
    requires divisor { c < 2 ^ width }
    requires nonzero { 0 < c }
    ensures { result ≡ srem_of width a c }
{
    Val::Num(modulo(remainder(width, a, c), width))
}
