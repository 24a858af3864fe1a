//! The words of the text.

ghost use Rattle.std.specs.Prelude.{◌≡◌};
ghost use Rattle.ll_tree.specs.Words.{is_called, bin_word, cast_word, pred_word};

use crate::{BinKind, CastKind, Pred};

impl BinKind {
    /// The opcode, or for a called operation what stands between `@llvm.` and its type.
    pub fn word(self) -> &'static [u8]
        ensures { result.now ≡ bin_word self }
    {
        match self {
            BinKind::Add => b"add",
            BinKind::Sub => b"sub",
            BinKind::Mul => b"mul",
            BinKind::Shl => b"shl",
            BinKind::Lshr => b"lshr",
            BinKind::Ashr => b"ashr",
            BinKind::And => b"and",
            BinKind::Or => b"or",
            BinKind::Xor => b"xor",
            BinKind::Udiv => b"udiv",
            BinKind::Sdiv => b"sdiv",
            BinKind::Urem => b"urem",
            BinKind::Srem => b"srem",
            BinKind::Smin => b"smin",
            BinKind::Smax => b"smax",
            BinKind::Umin => b"umin",
            BinKind::Umax => b"umax",
        }
    }

    /// Whether the operation is written as a call.
    pub fn is_called(self) -> bool
        ensures { result ≡ is_called self }
    {
        matches!(
            self,
            BinKind::Smin | BinKind::Smax | BinKind::Umin | BinKind::Umax
        )
    }
}

impl CastKind {
    /// The opcode.
    pub fn word(self) -> &'static [u8]
        ensures { result.now ≡ cast_word self }
    {
        match self {
            CastKind::Zext => b"zext",
            CastKind::Sext => b"sext",
            CastKind::Trunc => b"trunc",
        }
    }
}

impl Pred {
    /// The word behind `icmp`.
    pub fn word(self) -> &'static [u8]
        ensures { result.now ≡ pred_word self }
    {
        match self {
            Pred::Eq => b"eq",
            Pred::Ne => b"ne",
            Pred::Ugt => b"ugt",
            Pred::Uge => b"uge",
            Pred::Ult => b"ult",
            Pred::Ule => b"ule",
            Pred::Sgt => b"sgt",
            Pred::Sge => b"sge",
            Pred::Slt => b"slt",
            Pred::Sle => b"sle",
        }
    }
}
