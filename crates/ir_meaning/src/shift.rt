ghost use Rattle.std.specs.Prelude.{◌≡◌, ◌^◌, ◌<◌};
ghost use Rattle.ir_meaning.specs.Whole.{IsWidth};
ghost use Rattle.ir_meaning.specs.Rows.{shl_of, lshr_of, ashr_of};

use crate::Val;
use crate::arithmetic::wrapped;
use crate::whole::{low_bits, modulo, power, signed};
use ll_tree::Flags;

#[inline]
pub(crate) fn shl(flags: &Flags, width: u32, a: u32, k: u32) -> Val
    requires width { IsWidth width }
    requires number { a < 2 ^ width }
    ensures { result ≡ shl_of flags.now width a k }
{
    if k >= width {
        return Val::Poison;
    }
    let factor = power(k);
    wrapped(
        flags,
        width,
        u64::from(a) * factor,
        signed(a, width) * factor as i64,
    )
}

#[inline]
pub(crate) fn lshr(flags: &Flags, width: u32, a: u32, k: u32) -> Val
    requires width { IsWidth width }
    ensures { result ≡ lshr_of flags.now width a k }
{
    if k >= width || flags.exact && low_bits(u64::from(a), k) != 0 {
        Val::Poison
    } else {
        Val::Num(a >> k)
    }
}

#[inline]
pub(crate) fn ashr(flags: &Flags, width: u32, a: u32, k: u32) -> Val
    requires width { IsWidth width }
    requires number { a < 2 ^ width }
    ensures { result ≡ ashr_of flags.now width a k }
{
    if k >= width || flags.exact && low_bits(u64::from(a), k) != 0 {
        Val::Poison
    } else {
        Val::Num(modulo(signed(a, width) >> k, width))
    }
}
