use crate::Operand;

/// What an instruction computes. `width` is that of its operands.
#[derive(Debug, Drop)]
pub enum Op {
    /// An operation on two operands of one type, with a result of that type ("Binary Operations",
    /// "Bitwise Binary Operations", `llvm.smin` and its like).
    Bin {
        kind: BinKind,
        flags: Flags,
        width: u32,
        left: Operand,
        right: Operand,
    },
    /// `icmp`, whose result is an `i1`.
    Cmp {
        pred: Pred,
        flags: Flags,
        width: u32,
        left: Operand,
        right: Operand,
    },
    /// A conversion of an argument of `from` bits to `to` bits ("Conversion Operations").
    Cast {
        kind: CastKind,
        flags: Flags,
        from: u32,
        arg: Operand,
        to: u32,
    },
    /// `select` with a condition of type `i1` and two arms of `width` bits.
    Select {
        width: u32,
        cond: Operand,
        yes: Operand,
        no: Operand,
    },
    /// `llvm.abs`. Where strict, the least signed number gives poison.
    Abs {
        width: u32,
        arg: Operand,
        strict: bool,
    },
    /// `llvm.assume` of a condition of type `i1`. It has no result.
    Assume {
        cond: Operand,
    },
}

/// An operation on two operands.
#[derive(Clone, Copy, Debug, PartialEq, Eq)]
pub enum BinKind {
    Add,
    Sub,
    Mul,
    Shl,
    Lshr,
    Ashr,
    And,
    Or,
    Xor,
    Udiv,
    Sdiv,
    Urem,
    Srem,
    Smin,
    Smax,
    Umin,
    Umax,
}

/// A conversion between integer types.
#[derive(Clone, Copy, Debug, PartialEq, Eq)]
pub enum CastKind {
    Zext,
    Sext,
    Trunc,
}

/// A condition of `icmp`.
#[derive(Clone, Copy, Debug, PartialEq, Eq)]
pub enum Pred {
    Eq,
    Ne,
    Ugt,
    Uge,
    Ult,
    Ule,
    Sgt,
    Sge,
    Slt,
    Sle,
}

/// The flags that are written at an instruction. One that the instruction doesn't take has no meaning.
#[derive(Clone, Copy, Debug, PartialEq, Eq)]
pub struct Flags {
    pub nuw: bool,
    pub nsw: bool,
    pub exact: bool,
    pub nneg: bool,
    pub samesign: bool,
    pub disjoint: bool,
}
