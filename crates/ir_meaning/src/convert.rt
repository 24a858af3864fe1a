ghost use Rattle.std.specs.Prelude.{◌≡◌, ◌^◌, ◌<◌};
ghost use Rattle.ir_meaning.specs.Whole.{IsWidth};
ghost use Rattle.ir_meaning.specs.Rows.{zext_of, sext_of, trunc_of, abs_of};

use crate::Val;
use crate::arithmetic::wrapped;
use crate::whole::{low_bits, modulo, power, signed};
use ll_tree::Flags;

#[inline]
pub(crate) fn zext(flags: &Flags, width: u32, a: u32) -> Val
    requires width { IsWidth width }
    requires number { a < 2 ^ width }
    ensures { result ≡ zext_of flags.now width a }
{
    if flags.nneg && signed(a, width) < 0 {
        Val::Poison
    } else {
        Val::Num(a)
    }
}

#[inline]
pub(crate) fn sext(width: u32, to: u32, a: u32) -> Val
    requires width { IsWidth width }
    requires number { a < 2 ^ width }
    requires target { IsWidth to }
    ensures { result ≡ sext_of width to a }
{
    Val::Num(modulo(signed(a, width), to))
}

#[inline]
pub(crate) fn trunc(flags: &Flags, width: u32, to: u32, a: u32) -> Val
    requires width { IsWidth width }
    requires number { a < 2 ^ width }
    requires target { IsWidth to }
    ensures { result ≡ trunc_of flags.now width to a }
{
    wrapped(flags, to, u64::from(a), signed(a, width))
}

// The absolute value of the signed reading, modulo `2^width`.
#[inline]
pub(crate) fn absolute(strict: bool, width: u32, a: u32) -> Val
    requires width { IsWidth width }
    requires number { a < 2 ^ width }
    ensures { result ≡ abs_of strict width a }
{
    let half = power(width - 1);
    if strict && u64::from(a) == half {
        Val::Poison
    } else if u64::from(a) < half {
        Val::Num(a)
    } else {
        Val::Num(low_bits(power(width) - u64::from(a), width))
    }
}
