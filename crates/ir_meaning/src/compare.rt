ghost use Rattle.std.specs.Prelude.{◌≡◌, ◌^◌, ◌<◌};
ghost use Rattle.ir_meaning.specs.Whole.{IsWidth};
ghost use Rattle.ir_meaning.specs.Compare.{holds, signs_differ};
ghost use Rattle.ir_meaning.specs.Rows.{smin_of, smax_of};

use crate::Val;
use crate::whole::signed;
use ll_tree::Pred;

// Whether the predicate holds of two numbers of the width.
#[inline]
pub(crate) fn holds(pred: Pred, width: u32, a: u32, b: u32) -> bool
    requires width { IsWidth width }
    requires left { a < 2 ^ width }
    requires right { b < 2 ^ width }
    ensures { result ≡ holds pred width a b }
{
    match pred {
        Pred::Eq => a == b,
        Pred::Ne => a != b,
        Pred::Ugt => a > b,
        Pred::Uge => a >= b,
        Pred::Ult => a < b,
        Pred::Ule => a <= b,
        Pred::Sgt => signed(a, width) > signed(b, width),
        Pred::Sge => signed(a, width) >= signed(b, width),
        Pred::Slt => signed(a, width) < signed(b, width),
        Pred::Sle => signed(a, width) <= signed(b, width),
    }
}

// Whether exactly one of the signed readings is negative.
#[inline]
pub(crate) fn signs_differ(width: u32, a: u32, b: u32) -> bool
    requires width { IsWidth width }
    requires left { a < 2 ^ width }
    requires right { b < 2 ^ width }
    ensures { result ≡ signs_differ width a b }
{
    (signed(a, width) < 0) != (signed(b, width) < 0)
}

#[inline]
pub(crate) fn smin(width: u32, a: u32, b: u32) -> Val
    requires width { IsWidth width }
    requires left { a < 2 ^ width }
    requires right { b < 2 ^ width }
    ensures { result ≡ smin_of width a b }
{
    Val::Num(if signed(b, width) < signed(a, width) {
        b
    } else {
        a
    })
}

#[inline]
pub(crate) fn smax(width: u32, a: u32, b: u32) -> Val
    requires width { IsWidth width }
    requires left { a < 2 ^ width }
    requires right { b < 2 ^ width }
    ensures { result ≡ smax_of width a b }
{
    Val::Num(if signed(a, width) < signed(b, width) {
        b
    } else {
        a
    })
}
