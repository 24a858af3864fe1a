ghost use Rattle.std.specs.Prelude.{◌≡◌, ◌-◌, ◌^◌, ◌==◌};
ghost use Rattle.ll_rules.specs.Arithmetic as arithmetic;

use ll_tree::{BinKind, Op, Operand};

/// Whether no product, shift or division is of a value by a value: of two factors one is constant, and each
/// shift's amount and each divisor. `poison` counts as a constant.
pub fn is_linear(op: &Op) -> bool
    ensures { result ≡ arithmetic.is_linear op.now }
{
    match op {
        Op::Bin {
            kind,
            left,
            right,
            ..
        } => are_linear(*kind, is_constant(left), is_constant(right)),
        _ => true,
    }
}

fn are_linear(kind: BinKind, left: bool, right: bool) -> bool
    ensures { result ≡ arithmetic.are_linear kind left right }
{
    match kind {
        BinKind::Mul => left || right,
        BinKind::Shl
        | BinKind::Lshr
        | BinKind::Ashr
        | BinKind::Udiv
        | BinKind::Sdiv
        | BinKind::Urem
        | BinKind::Srem => right,
        _ => true,
    }
}

fn is_constant(operand: &Operand) -> bool
    ensures { result ≡ arithmetic.is_constant operand.now }
{
    !matches!(operand, Operand::Name(_))
}

/// Whether an operation doesn't divide by 0, by `poison` or, where it is signed, by -1.
pub fn has_divisor(op: &Op) -> bool
    ensures { result ≡ arithmetic.has_divisor op.now }
{
    match op {
        Op::Bin {
            kind,
            width,
            right,
            ..
        } => is_divisor(*kind, *width, right),
        _ => true,
    }
}

fn is_divisor(kind: BinKind, width: u32, right: &Operand) -> bool
    ensures { result ≡ arithmetic.is_divisor kind width right.now }
{
    match kind {
        BinKind::Udiv | BinKind::Urem => is_unsigned_divisor(right),
        BinKind::Sdiv | BinKind::Srem => is_signed_divisor(width, right),
        _ => true,
    }
}

fn is_unsigned_divisor(right: &Operand) -> bool
    ensures { result ≡ arithmetic.is_unsigned_divisor right.now }
{
    match right {
        Operand::Name(_) => true,
        Operand::Const(number) => *number != 0,
        Operand::Poison => false,
    }
}

fn is_signed_divisor(width: u32, right: &Operand) -> bool
    ensures { result ≡ arithmetic.is_signed_divisor width right.now }
{
    match right {
        Operand::Name(_) => true,
        Operand::Const(number) => *number != 0 && !is_minus_one(width, *number),
        Operand::Poison => false,
    }
}

// Whether the number is -1 in so many bits.
fn is_minus_one(width: u32, number: u32) -> bool
    ensures { result ≡ (number == 2 ^ width - 1) }
{
    width <= 32 && u64::from(number) == (1 << width) - 1
}
