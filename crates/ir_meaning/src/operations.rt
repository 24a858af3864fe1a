ghost use Rattle.std.specs.Prelude.{◌≡◌, ◌≢◌, ◌≤◌, ◌==◌, ◌&&◌, true, not, bit_and, bit_or};
ghost use Rattle.ll_tree.specs.declared.op.CastKind.TheVariants.{Zext};
ghost use Rattle.ir_meaning.specs.declared.value.Val.TheVariants.{Num};
ghost use Rattle.ir_meaning.specs.Whole.{IsWidth};
ghost use Rattle.ir_meaning.specs.Value.{FitsWidth, poison_if, on_number};
ghost use Rattle.ir_meaning.specs.Compare.{cmp_of};
ghost use Rattle.ir_meaning.specs.Rows.{bin_of, cast_of, abs_of, divides};

use crate::Val;
use crate::arithmetic::{add, mul, sub};
use crate::compare::{holds, signs_differ, smax, smin};
use crate::convert::{absolute, sext, trunc, zext};
use crate::divide::{sdiv, srem, udiv};
use crate::shift::{ashr, lshr, shl};
use ll_tree::{BinKind, CastKind, Flags, Pred};

/// The value of an operation of two operands of a width. The divisor of a division or a remainder isn't the number 0.
#[inline]
pub fn bin(kind: BinKind, flags: &Flags, width: u32, a: Val, b: Val) -> Val
    requires width { IsWidth width }
    requires left { FitsWidth width a }
    requires right { FitsWidth width b }
    requires divisor { divides kind ≡ true → b ≢ Num 0 }
    ensures value { result ≡ bin_of kind flags.now width a b }
    ensures fits { FitsWidth width result }
{
    let (Val::Num(a), Val::Num(b)) = (a, b) else {
        return Val::Poison;
    };
    match kind {
        BinKind::Add => add(flags, width, a, b),
        BinKind::Sub => sub(flags, width, a, b),
        BinKind::Mul => mul(flags, width, a, b),
        BinKind::Shl => shl(flags, width, a, b),
        BinKind::Lshr => lshr(flags, width, a, b),
        BinKind::Ashr => ashr(flags, width, a, b),
        BinKind::And => Val::Num(a & b),
        BinKind::Or => or(flags, a, b),
        BinKind::Xor => Val::Num(a ^ b),
        BinKind::Udiv => udiv(flags, a, b),
        BinKind::Sdiv => sdiv(flags, width, a, b),
        BinKind::Urem => Val::Num(a % b),
        BinKind::Srem => srem(width, a, b),
        BinKind::Smin => smin(width, a, b),
        BinKind::Smax => smax(width, a, b),
        BinKind::Umin => Val::Num(a.min(b)),
        BinKind::Umax => Val::Num(a.max(b)),
    }
}

// The bits of both operands, unless the flag bars a bit that is 1 in both.
#[inline]
fn or(flags: &Flags, a: u32, b: u32) -> Val
    ensures { result ≡ poison_if (flags.now.disjoint && not (bit_and a b == 0)) (bit_or a b) }
{
    if flags.disjoint && a & b != 0 {
        Val::Poison
    } else {
        Val::Num(a | b)
    }
}

/// The value of a comparison of two operands of a width: 1 where the predicate holds, else 0.
#[inline]
pub fn cmp(pred: Pred, flags: &Flags, width: u32, a: Val, b: Val) -> Val
    requires width { IsWidth width }
    requires left { FitsWidth width a }
    requires right { FitsWidth width b }
    ensures value { result ≡ cmp_of pred flags.now width a b }
    ensures fits { FitsWidth 1 result }
{
    let (Val::Num(a), Val::Num(b)) = (a, b) else {
        return Val::Poison;
    };
    if flags.samesign && signs_differ(width, a, b) {
        Val::Poison
    } else {
        Val::Num(u32::from(holds(pred, width, a, b)))
    }
}

/// The value of a conversion from one width to another. A `zext` gives the number itself, which fits where `to` is no less than `from`.
#[inline]
pub fn cast(kind: CastKind, flags: &Flags, from: u32, to: u32, a: Val) -> Val
    requires source { IsWidth from }
    requires target { IsWidth to }
    requires number { FitsWidth from a }
    ensures value { result ≡ cast_of kind flags.now from to a }
    ensures fits { (kind ≡ Zext → from ≤ to) → FitsWidth to result }
{
    let Val::Num(a) = a else {
        return Val::Poison;
    };
    match kind {
        CastKind::Zext => zext(flags, from, a),
        CastKind::Sext => sext(from, to, a),
        CastKind::Trunc => trunc(flags, from, to, a),
    }
}

/// The absolute value of the signed reading, modulo `2^width`. Where it is strict, the least signed number gives poison.
#[inline]
pub fn abs(strict: bool, width: u32, a: Val) -> Val
    requires width { IsWidth width }
    requires number { FitsWidth width a }
    ensures value { result ≡ on_number (abs_of strict width) a }
    ensures fits { FitsWidth width result }
{
    let Val::Num(a) = a else {
        return Val::Poison;
    };
    absolute(strict, width, a)
}
