ghost use Rattle.std.specs.Prelude.{◌≡◌, ◌<◌, ◌^◌, IfSome, ℕ, ℤ, List, map, Some};
ghost use Rattle.std.specs.Option.{unwrap_or};
ghost use Rattle.ir_pieces.specs.Choice as spec;

use crate::IrPiece;
use bit_rows::{BitKind, BitOperand, Bitwise};
use div_rows::{Abs, DivisionKind, Extreme, ExtremeKind, SignedDivision, UnsignedDivision};
use ll_tree::{BinKind, CastKind, Flags, Op};
use wrap_rows::{
    Compare, Scale, Scaled, Select, Sext, ShiftKind, ShiftOut, ShiftRight, Sum, SumKind, Trunc,
    ValueVars, Zext,
};

/// The piece of an operation whose operands, in written order, stand at these variables; `None` exactly for an assume.
///
/// Of a factor, an amount or a divisor only the literal and the mark's variable are used.
pub fn piece_of(op: &Op, operands: &[BitOperand]) -> Option<IrPiece>
    ensures { result ≡ spec.piece_of op.now operands.now }
{
    let a = operand_at(operands, 0);
    let b = operand_at(operands, 1);
    match op {
        Op::Bin {
            kind,
            flags,
            width,
            ..
        } => Some(bin_piece(*kind, *flags, *width, a, b)),
        Op::Cmp {
            pred,
            flags,
            width,
            ..
        } => Some(IrPiece::Compare(Compare {
            pred: *pred,
            flags: *flags,
            width: *width,
            a: a.vars,
            b: b.vars,
        })),
        Op::Cast {
            kind,
            flags,
            from,
            to,
            ..
        } => Some(cast_piece(*kind, *flags, *from, *to, a)),
        Op::Select { width, .. } => Some(IrPiece::Select(Select {
            width: *width,
            cond: a.vars,
            yes: b.vars,
            no: operand_at(operands, 2).vars,
        })),
        Op::Abs { width, strict, .. } => Some(IrPiece::Abs(Abs {
            strict: *strict,
            width: *width,
            a: a.vars,
        })),
        Op::Assume { .. } => None,
    }
}

fn operand_at(operands: &[BitOperand], at: usize) -> BitOperand
    ensures { result ≡ spec.operand_at operands.now at }
{
    match operands.get(at) {
        Some(operand) => *operand,
        None => BitOperand {
            vars: ValueVars { number: 0, mark: 0 },
            literal: None,
        },
    }
}

// The number of a literal.
fn constant_of(operand: BitOperand) -> u32
    ensures { result ≡ spec.constant_of operand }
{
    operand.literal.unwrap_or(0)
}

fn cast_piece(kind: CastKind, flags: Flags, from: u32, to: u32, arg: BitOperand) -> IrPiece
    ensures { result ≡ spec.cast_piece kind flags from to arg }
{
    let a = arg.vars;
    match kind {
        CastKind::Zext => IrPiece::Zext(Zext { flags, from, to, a }),
        CastKind::Sext => IrPiece::Sext(Sext { from, to, a }),
        CastKind::Trunc => IrPiece::Trunc(Trunc { flags, from, to, a }),
    }
}

fn bin_piece(kind: BinKind, flags: Flags, width: u32, a: BitOperand, b: BitOperand) -> IrPiece
    ensures { result ≡ spec.bin_piece kind flags width a b }
{
    match kind {
        BinKind::Add => sum_piece(SumKind::Plus, flags, width, a, b),
        BinKind::Sub => sum_piece(SumKind::Minus, flags, width, a, b),
        BinKind::Mul => product_piece(flags, width, a, b),
        BinKind::Shl => left_piece(flags, width, a, b),
        BinKind::Lshr => right_piece(false, flags, width, a, b),
        BinKind::Ashr => right_piece(true, flags, width, a, b),
        BinKind::And => bitwise_piece(BitKind::And, flags, width, a, b),
        BinKind::Or => bitwise_piece(BitKind::Or, flags, width, a, b),
        BinKind::Xor => bitwise_piece(BitKind::Xor, flags, width, a, b),
        BinKind::Udiv => unsigned_piece(DivisionKind::Quotient, flags, width, a, b),
        BinKind::Sdiv => signed_piece(DivisionKind::Quotient, flags, width, a, b),
        BinKind::Urem => unsigned_piece(DivisionKind::Remainder, flags, width, a, b),
        BinKind::Srem => signed_piece(DivisionKind::Remainder, flags, width, a, b),
        BinKind::Smin => extreme_piece(ExtremeKind::Least, true, width, a, b),
        BinKind::Smax => extreme_piece(ExtremeKind::Greatest, true, width, a, b),
        BinKind::Umin => extreme_piece(ExtremeKind::Least, false, width, a, b),
        BinKind::Umax => extreme_piece(ExtremeKind::Greatest, false, width, a, b),
    }
}

fn sum_piece(kind: SumKind, flags: Flags, width: u32, a: BitOperand, b: BitOperand) -> IrPiece
    ensures { result ≡ spec.sum_piece kind flags width a b }
{
    IrPiece::Sum(Sum {
        kind,
        flags,
        width,
        a: a.vars,
        b: b.vars,
    })
}

// The factor is the right operand where that is a literal, else the left.
fn product_piece(flags: Flags, width: u32, a: BitOperand, b: BitOperand) -> IrPiece
    ensures { result ≡ spec.product_by b.literal flags width a b }
{
    match b.literal {
        Some(factor) => scaled_piece(Scale::Behind(factor), flags, width, a, b),
        None => scaled_piece(Scale::Before(constant_of(a)), flags, width, b, a),
    }
}

fn scaled_piece(
    scale: Scale,
    flags: Flags,
    width: u32,
    a: BitOperand,
    constant: BitOperand,
) -> IrPiece
    ensures { result ≡ spec.scaled_piece scale flags width a constant }
{
    IrPiece::Scaled(Scaled {
        scale,
        flags,
        width,
        a: a.vars,
        constant_mark: constant.vars.mark,
    })
}

fn left_piece(flags: Flags, width: u32, a: BitOperand, by: BitOperand) -> IrPiece
    ensures { result ≡ spec.left_piece flags width a by }
{
    let amount = constant_of(by);
    if amount < width {
        scaled_piece(Scale::Shift(amount), flags, width, a, by)
    } else {
        shifted_out(ShiftKind::Left, flags, width, a, by)
    }
}

fn right_piece(signed: bool, flags: Flags, width: u32, a: BitOperand, by: BitOperand) -> IrPiece
    ensures { result ≡ spec.right_piece signed flags width a by }
{
    let amount = constant_of(by);
    if amount < width {
        IrPiece::ShiftRight(ShiftRight {
            signed,
            flags,
            width,
            amount,
            a: a.vars,
            amount_mark: by.vars.mark,
        })
    } else {
        shifted_out(right_kind(signed), flags, width, a, by)
    }
}

fn right_kind(signed: bool) -> ShiftKind
    ensures { result ≡ spec.right_kind signed }
{
    if signed {
        ShiftKind::SignedRight
    } else {
        ShiftKind::Right
    }
}

fn shifted_out(kind: ShiftKind, flags: Flags, width: u32, a: BitOperand, by: BitOperand) -> IrPiece
    ensures { result ≡ spec.shifted_out kind flags width a by }
{
    IrPiece::ShiftOut(ShiftOut {
        kind,
        flags,
        width,
        amount: constant_of(by),
        a: a.vars,
        amount_mark: by.vars.mark,
    })
}

fn bitwise_piece(kind: BitKind, flags: Flags, width: u32, a: BitOperand, b: BitOperand) -> IrPiece
    ensures { result ≡ spec.bitwise_piece kind flags width a b }
{
    IrPiece::Bitwise(Bitwise {
        kind,
        flags,
        width,
        a,
        b,
    })
}

fn unsigned_piece(
    kind: DivisionKind,
    flags: Flags,
    width: u32,
    a: BitOperand,
    by: BitOperand,
) -> IrPiece
    ensures { result ≡ spec.unsigned_piece kind flags width a by }
{
    IrPiece::UnsignedDivision(UnsignedDivision {
        kind,
        flags,
        width,
        divisor: constant_of(by),
        a: a.vars,
        divisor_mark: by.vars.mark,
    })
}

fn signed_piece(
    kind: DivisionKind,
    flags: Flags,
    width: u32,
    a: BitOperand,
    by: BitOperand,
) -> IrPiece
    ensures { result ≡ spec.signed_piece kind flags width a by }
{
    IrPiece::SignedDivision(SignedDivision {
        kind,
        flags,
        width,
        divisor: constant_of(by),
        a: a.vars,
        divisor_mark: by.vars.mark,
    })
}

fn extreme_piece(
    kind: ExtremeKind,
    signed: bool,
    width: u32,
    a: BitOperand,
    b: BitOperand,
) -> IrPiece
    ensures { result ≡ spec.extreme_piece kind signed width a b }
{
    IrPiece::Extreme(Extreme {
        kind,
        signed,
        width,
        a: a.vars,
        b: b.vars,
    })
}
