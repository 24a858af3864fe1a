//! Pieces of operations on numbers of 8 bits, over operands at the variables 2 and 3, 4 and 5, 6 and 7.

ghost use Rattle.std.specs.Prelude.{◌≡◌, ◌+◌, ◌<◌, ◌≤◌, IfSome, IfOk};
ghost use Rattle.wrap_rows.specs.Scaled.{IsScale};
ghost use Rattle.ir_pieces.specs.Pieces.{IsAt};
ghost use Rattle.ir_pieces.specs.Bounded.{edges_of};

use crate::words::{cast_kind, pred_of};
use bit_rows::{BitKind, BitOperand, Bitwise};
use div_rows::{Abs, DivisionKind, Extreme, ExtremeKind, SignedDivision, UnsignedDivision};
use ir_pieces::IrPiece;
use ll_tree::{CastKind, Flags, Pred};
use std::alloc::Global;
use wrap_rows::{
    Compare, Incoming, Phi, Ranged, Scale, Scaled, Select, Sext, ShiftKind, ShiftOut, ShiftRight,
    Sum, SumKind, Trunc, ValueVars, Zext,
};
use wx_base::NoMemory;

/// The piece of a word: of a product, a shift, a division or a bitwise operation the right operand is the constant.
/// A constant that the word's operation doesn't take has no piece.
pub fn made(word: &str, flags: Flags, constant: u8) -> Option<IrPiece>
    ensures at { IfSome result (λ piece. IsAt piece 8) }
    ensures edges { IfSome result (λ piece. edges_of piece ≡ 0) }
{
    let by = u32::from(constant);
    match word {
        "add" => Some(sum(SumKind::Plus, flags)),
        "sub" => Some(sum(SumKind::Minus, flags)),
        "mul" => Some(scaled(Scale::Behind(by), flags)),
        "before" => Some(scaled(Scale::Before(by), flags)),
        "shl" => shifted_left(flags, by),
        "lshr" => shifted_right(false, flags, by),
        "ashr" => shifted_right(true, flags, by),
        "shift_out" => shifted_out(flags, by),
        "select" => Some(select()),
        _ => other(word, flags, constant),
    }
}

fn other(word: &str, flags: Flags, constant: u8) -> Option<IrPiece>
    ensures at { IfSome result (λ piece. IsAt piece 8) }
    ensures edges { IfSome result (λ piece. edges_of piece ≡ 0) }
{
    let by = u32::from(constant);
    match word {
        "and" => Some(bitwise(BitKind::And, flags)),
        "or" => Some(bitwise(BitKind::Or, flags)),
        "xor" => Some(bitwise(BitKind::Xor, flags)),
        "and_literal" => Some(with_literal(flags, by)),
        "udiv" => divided(DivisionKind::Quotient, flags, by),
        "urem" => divided(DivisionKind::Remainder, flags, by),
        "sdiv" => signed(DivisionKind::Quotient, flags, by),
        "srem" => signed(DivisionKind::Remainder, flags, by),
        _ => last(word, flags, by),
    }
}

fn last(word: &str, flags: Flags, by: u32) -> Option<IrPiece>
    ensures at { IfSome result (λ piece. IsAt piece 8) }
    ensures edges { IfSome result (λ piece. edges_of piece ≡ 0) }
{
    match word {
        "smin" => Some(extreme(ExtremeKind::Least, true)),
        "smax" => Some(extreme(ExtremeKind::Greatest, true)),
        "umin" => Some(extreme(ExtremeKind::Least, false)),
        "umax" => Some(extreme(ExtremeKind::Greatest, false)),
        "abs" => Some(absolute(false)),
        "strict_abs" => Some(absolute(true)),
        "range" => ranged(by, 200),
        "around" => ranged(200, by),
        _ => named(word, flags),
    }
}

fn named(word: &str, flags: Flags) -> Option<IrPiece>
    ensures at { IfSome result (λ piece. IsAt piece 8) }
    ensures edges { IfSome result (λ piece. edges_of piece ≡ 0) }
{
    if let Some(pred) = pred_of(word) {
        return Some(compared(pred, flags));
    }
    match cast_kind(word) {
        Some(kind) => Some(cast(kind, flags)),
        None => None,
    }
}

fn at(number: u32) -> ValueVars
    requires { number < 100 }
    ensures { result ≡ record { number = number; mark = number + 1 } }
{
    ValueVars {
        number,
        mark: number + 1,
    }
}

fn sum(kind: SumKind, flags: Flags) -> IrPiece
    ensures at { IsAt result 8 }
    ensures edges { edges_of result ≡ 0 }
{
    IrPiece::Sum(Sum {
        kind,
        flags,
        width: 8,
        a: at(2),
        b: at(4),
    })
}

// The constant's mark is variable 0.
fn scaled(scale: Scale, flags: Flags) -> IrPiece
    requires { IsScale 8 scale }
    ensures at { IsAt result 8 }
    ensures edges { edges_of result ≡ 0 }
{
    IrPiece::Scaled(Scaled {
        scale,
        flags,
        width: 8,
        a: at(2),
        constant_mark: 0,
    })
}

fn shifted_left(flags: Flags, amount: u32) -> Option<IrPiece>
    ensures at { IfSome result (λ piece. IsAt piece 8) }
    ensures edges { IfSome result (λ piece. edges_of piece ≡ 0) }
{
    if amount < 8 {
        Some(scaled(Scale::Shift(amount), flags))
    } else {
        None
    }
}

fn shifted_right(signed: bool, flags: Flags, amount: u32) -> Option<IrPiece>
    ensures at { IfSome result (λ piece. IsAt piece 8) }
    ensures edges { IfSome result (λ piece. edges_of piece ≡ 0) }
{
    if amount >= 8 {
        return None;
    }
    Some(IrPiece::ShiftRight(ShiftRight {
        signed,
        flags,
        width: 8,
        amount,
        a: at(2),
        amount_mark: 0,
    }))
}

fn shifted_out(flags: Flags, amount: u32) -> Option<IrPiece>
    ensures at { IfSome result (λ piece. IsAt piece 8) }
    ensures edges { IfSome result (λ piece. edges_of piece ≡ 0) }
{
    if amount < 8 {
        return None;
    }
    Some(IrPiece::ShiftOut(ShiftOut {
        kind: ShiftKind::Left,
        flags,
        width: 8,
        amount,
        a: at(2),
        amount_mark: 0,
    }))
}

fn select() -> IrPiece
    ensures at { IsAt result 8 }
    ensures edges { edges_of result ≡ 0 }
{
    IrPiece::Select(Select {
        width: 8,
        cond: at(2),
        yes: at(4),
        no: at(6),
    })
}

fn bitwise(kind: BitKind, flags: Flags) -> IrPiece
    ensures at { IsAt result 8 }
    ensures edges { edges_of result ≡ 0 }
{
    IrPiece::Bitwise(Bitwise {
        kind,
        flags,
        width: 8,
        a: BitOperand {
            vars: at(2),
            literal: None,
        },
        b: BitOperand {
            vars: at(4),
            literal: None,
        },
    })
}

// `and` with a literal that stands at variable 4.
fn with_literal(flags: Flags, literal: u32) -> IrPiece
    ensures at { IsAt result 8 }
    ensures edges { edges_of result ≡ 0 }
{
    IrPiece::Bitwise(Bitwise {
        kind: BitKind::And,
        flags,
        width: 8,
        a: BitOperand {
            vars: at(2),
            literal: None,
        },
        b: BitOperand {
            vars: ValueVars { number: 4, mark: 0 },
            literal: Some(literal),
        },
    })
}

fn divided(kind: DivisionKind, flags: Flags, divisor: u32) -> Option<IrPiece>
    ensures at { IfSome result (λ piece. IsAt piece 8) }
    ensures edges { IfSome result (λ piece. edges_of piece ≡ 0) }
{
    if divisor == 0 {
        return None;
    }
    if divisor > 255 {
        return None;
    }
    Some(IrPiece::UnsignedDivision(UnsignedDivision {
        kind,
        flags,
        width: 8,
        divisor,
        a: at(2),
        divisor_mark: 0,
    }))
}

fn signed(kind: DivisionKind, flags: Flags, divisor: u32) -> Option<IrPiece>
    ensures at { IfSome result (λ piece. IsAt piece 8) }
    ensures edges { IfSome result (λ piece. edges_of piece ≡ 0) }
{
    if divisor == 0 {
        return None;
    }
    if divisor > 254 {
        return None;
    }
    Some(IrPiece::SignedDivision(SignedDivision {
        kind,
        flags,
        width: 8,
        divisor,
        a: at(2),
        divisor_mark: 0,
    }))
}

fn extreme(kind: ExtremeKind, signed: bool) -> IrPiece
    ensures at { IsAt result 8 }
    ensures edges { edges_of result ≡ 0 }
{
    IrPiece::Extreme(Extreme {
        kind,
        signed,
        width: 8,
        a: at(2),
        b: at(4),
    })
}

fn absolute(strict: bool) -> IrPiece
    ensures at { IsAt result 8 }
    ensures edges { edges_of result ≡ 0 }
{
    IrPiece::Abs(Abs {
        strict,
        width: 8,
        a: at(2),
    })
}

fn ranged(low: u32, high: u32) -> Option<IrPiece>
    ensures at { IfSome result (λ piece. IsAt piece 8) }
    ensures edges { IfSome result (λ piece. edges_of piece ≡ 0) }
{
    if low > 255 {
        return None;
    }
    if high > 255 {
        return None;
    }
    Some(IrPiece::Ranged(Ranged {
        width: 8,
        low,
        high,
        number: 2,
    }))
}

fn compared(pred: Pred, flags: Flags) -> IrPiece
    ensures at { IsAt result 8 }
    ensures edges { edges_of result ≡ 0 }
{
    IrPiece::Compare(Compare {
        pred,
        flags,
        width: 8,
        a: at(2),
        b: at(4),
    })
}

// From 8 bits to 16, or to 4.
fn cast(kind: CastKind, flags: Flags) -> IrPiece
    ensures at { IsAt result 8 }
    ensures edges { edges_of result ≡ 0 }
{
    let a = at(2);
    match kind {
        CastKind::Zext => IrPiece::Zext(Zext {
            flags,
            from: 8,
            to: 16,
            a,
        }),
        CastKind::Sext => IrPiece::Sext(Sext { from: 8, to: 16, a }),
        CastKind::Trunc => IrPiece::Trunc(Trunc {
            flags,
            from: 8,
            to: 4,
            a,
        }),
    }
}

/// A phi over two edges, whose variables are 6 and 7.
pub fn phi(alloc: Global) -> Result<IrPiece, NoMemory>
    ensures at { IfOk result (λ piece. IsAt piece 8) }
    ensures edges { IfOk result (λ piece. edges_of piece ≤ 2) }
{
    let left = Incoming {
        edge: 6,
        value: at(2),
    };
    let right = Incoming {
        edge: 7,
        value: at(4),
    };
    let incoming = vec![in alloc; left, right]?;
    Ok(IrPiece::Phi(Phi { width: 8, incoming }))
}
