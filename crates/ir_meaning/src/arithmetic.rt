ghost use Rattle.std.specs.Prelude.{◌≡◌, ◌^◌, ◌<◌, pos};
ghost use Rattle.ir_meaning.specs.Whole.{IsWidth, signed};
ghost use Rattle.ir_meaning.specs.Rows.{is_barred, wrapped, add_of, sub_of, mul_of};

use crate::Val;
use crate::whole::{is_signed, low_bits, power, signed};
use ll_tree::Flags;

// Whether a flag bars a wrap: `nuw` where the exact result `leaves` the numbers of the width, `nsw` where that of the signed readings leaves the signed ones.
#[inline]
fn is_barred(flags: &Flags, width: u32, leaves: bool, exact_signed: i64) -> bool
    requires { IsWidth width }
    ensures { result ≡ is_barred flags.now width leaves exact_signed }
{
    flags.nuw && leaves || flags.nsw && !is_signed(exact_signed, width)
}

// The exact result modulo `2^width`, unless a flag bars the wrap. `exact_signed` is the exact result of the signed readings.
#[inline]
pub(crate) fn wrapped(flags: &Flags, width: u32, exact: u64, exact_signed: i64) -> Val
    requires { IsWidth width }
    ensures { result ≡ wrapped flags.now width (pos exact) exact_signed }
{
    if is_barred(flags, width, exact >= power(width), exact_signed) {
        Val::Poison
    } else {
        Val::Num(low_bits(exact, width))
    }
}

#[inline]
pub(crate) fn add(flags: &Flags, width: u32, a: u32, b: u32) -> Val
    requires width { IsWidth width }
    requires left { a < 2 ^ width }
    requires right { b < 2 ^ width }
    ensures { result ≡ add_of flags.now width a b }
{
    wrapped(
        flags,
        width,
        u64::from(a) + u64::from(b),
        signed(a, width) + signed(b, width),
    )
}

#[inline]
pub(crate) fn sub(flags: &Flags, width: u32, a: u32, b: u32) -> Val
    requires width { IsWidth width }
    requires left { a < 2 ^ width }
    requires right { b < 2 ^ width }
    ensures { result ≡ sub_of flags.now width a b }
{
    let exact_signed = signed(a, width) - signed(b, width);
    if is_barred(flags, width, a < b, exact_signed) {
        Val::Poison
    } else {
        Val::Num(low_bits(u64::from(a) + power(width) - u64::from(b), width))
    }
}

#[inline]
pub(crate) fn mul(flags: &Flags, width: u32, a: u32, b: u32) -> Val
    requires width { IsWidth width }
    requires left { a < 2 ^ width }
    requires right { b < 2 ^ width }
    ensures { result ≡ mul_of flags.now width a b }
{
    wrapped(
        flags,
        width,
        u64::from(a) * u64::from(b),
        signed(a, width) * signed(b, width),
    )
}
