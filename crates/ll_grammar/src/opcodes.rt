//! The words of instructions, and what they stand for (LLVM Language Reference, "Instruction Reference").

ghost use Rattle.std.specs.Prelude.{◌≡◌};
ghost use Rattle.std.specs.Option.{option_copied};
ghost use Rattle.ll_grammar.specs.Words.{binary_of, cast_of, pred_of, behind, has_width, typed_callee, callee_of, no_flags, wrap_flags, takes, cast_takes, compare_takes, once, add_flag};

use crate::words::{is_text, width_of};
use ll_tree::{BinKind, CastKind, Flags, Pred};

/// A function of LLVM that may be called for its result.
#[derive(Clone, Copy, Debug, PartialEq, Eq)]
pub enum Callee {
    /// An operation on two operands: `llvm.smin` and its like.
    Bin(BinKind),
    /// `llvm.abs`.
    Abs,
}

/// The value at the first of these words that this one is.
macro_rules! value_of {
    ($word:expr; $first:literal => $value:expr, $($other:literal => $more:expr),* $(,)?) => {
        if is_text($word, $first) { Some($value) }
        $(else if is_text($word, $other) { Some($more) })*
        else { None }
    };
}

/// The operation of a word.
#[tactic(auto, unfolding(crate::specs::Words::binary_of))]
pub fn binary_of(word: &[u8]) -> Option<BinKind>
    ensures { result ≡ binary_of word.now }
{
    value_of!(word;
        b"add" => BinKind::Add,
        b"sub" => BinKind::Sub,
        b"mul" => BinKind::Mul,
        b"shl" => BinKind::Shl,
        b"lshr" => BinKind::Lshr,
        b"ashr" => BinKind::Ashr,
        b"and" => BinKind::And,
        b"or" => BinKind::Or,
        b"xor" => BinKind::Xor,
        b"udiv" => BinKind::Udiv,
        b"sdiv" => BinKind::Sdiv,
        b"urem" => BinKind::Urem,
        b"srem" => BinKind::Srem,
    )
}

/// The conversion of a word.
#[tactic(auto, unfolding(crate::specs::Words::cast_of))]
pub fn cast_of(word: &[u8]) -> Option<CastKind>
    ensures { result ≡ cast_of word.now }
{
    value_of!(word;
        b"zext" => CastKind::Zext,
        b"sext" => CastKind::Sext,
        b"trunc" => CastKind::Trunc,
    )
}

/// The condition of a word.
#[tactic(auto, unfolding(crate::specs::Words::pred_of))]
pub fn pred_of(word: &[u8]) -> Option<Pred>
    ensures { result ≡ pred_of word.now }
{
    value_of!(word;
        b"eq" => Pred::Eq,
        b"ne" => Pred::Ne,
        b"ugt" => Pred::Ugt,
        b"uge" => Pred::Uge,
        b"ult" => Pred::Ult,
        b"ule" => Pred::Ule,
        b"sgt" => Pred::Sgt,
        b"sge" => Pred::Sge,
        b"slt" => Pred::Slt,
        b"sle" => Pred::Sle,
    )
}

/// What stands behind the prefix, where the bytes begin with it.
#[tactic(auto, unfolding(crate::specs::Words::behind))]
fn behind<'a>(prefix: &[u8], bytes: &'a [u8]) -> Option<&'a [u8]>
    ensures { option_copied result ≡ behind prefix.now bytes.now }
{
    bytes.strip_prefix(prefix)
}

/// Whether a word is the integer type of this width.
pub fn has_width(width: u32, word: &[u8]) -> bool
    ensures { result ≡ has_width width word.now }
{
    match width_of(word) {
        Some(found) => found == width,
        None => false,
    }
}

/// The function of a name that ends in the type of this width.
#[tactic(auto, unfolding(crate::specs::Words::callee_of))]
pub fn callee_of(width: u32, name: &[u8]) -> Option<Callee>
    ensures { result ≡ callee_of width name.now }
{
    if let Some(word) = behind(b"llvm.smin.", name) {
        return has_width(width, word).then_some(Callee::Bin(BinKind::Smin));
    }
    if let Some(word) = behind(b"llvm.smax.", name) {
        return has_width(width, word).then_some(Callee::Bin(BinKind::Smax));
    }
    if let Some(word) = behind(b"llvm.umin.", name) {
        return has_width(width, word).then_some(Callee::Bin(BinKind::Umin));
    }
    if let Some(word) = behind(b"llvm.umax.", name) {
        return has_width(width, word).then_some(Callee::Bin(BinKind::Umax));
    }
    let word = behind(b"llvm.abs.", name)?;
    has_width(width, word).then_some(Callee::Abs)
}

const NO_FLAGS: Flags = Flags {
    nuw: false,
    nsw: false,
    exact: false,
    nneg: false,
    samesign: false,
    disjoint: false,
};

const WRAP_FLAGS: Flags = Flags {
    nuw: true,
    nsw: true,
    exact: false,
    nneg: false,
    samesign: false,
    disjoint: false,
};

/// No flag.
pub fn no_flags() -> Flags
    ensures { result ≡ no_flags }
{
    NO_FLAGS
}

/// The flags that an operation may have.
pub fn takes(kind: BinKind) -> Flags
    ensures { result ≡ takes kind }
{
    match kind {
        BinKind::Add | BinKind::Sub | BinKind::Mul | BinKind::Shl => WRAP_FLAGS,
        BinKind::Lshr | BinKind::Ashr | BinKind::Udiv | BinKind::Sdiv => Flags {
            exact: true,
            ..NO_FLAGS
        },
        BinKind::Or => Flags {
            disjoint: true,
            ..NO_FLAGS
        },
        _ => NO_FLAGS,
    }
}

/// The flags that a conversion may have.
pub fn cast_takes(kind: CastKind) -> Flags
    ensures { result ≡ cast_takes kind }
{
    match kind {
        CastKind::Zext => Flags {
            nneg: true,
            ..NO_FLAGS
        },
        CastKind::Sext => NO_FLAGS,
        CastKind::Trunc => WRAP_FLAGS,
    }
}

/// The flags that `icmp` may have.
pub fn compare_takes() -> Flags
    ensures { result ≡ compare_takes }
{
    Flags {
        samesign: true,
        ..NO_FLAGS
    }
}

/// These flags, where this one is allowed and wasn't there.
fn once(allowed: bool, there: bool, more: Flags) -> Option<Flags>
    ensures { result ≡ once allowed there more }
{
    (allowed && !there).then_some(more)
}

/// The flags with the one of a word, where it is a flag that is allowed and isn't there yet.
#[tactic(auto, unfolding(crate::specs::Words::add_flag))]
pub fn add_flag(allowed: Flags, flags: Flags, word: &[u8]) -> Option<Flags>
    ensures { result ≡ add_flag allowed flags word.now }
{
    if is_text(word, b"nuw") {
        once(allowed.nuw, flags.nuw, Flags { nuw: true, ..flags })
    } else if is_text(word, b"nsw") {
        once(allowed.nsw, flags.nsw, Flags { nsw: true, ..flags })
    } else if is_text(word, b"exact") {
        once(
            allowed.exact,
            flags.exact,
            Flags {
                exact: true,
                ..flags
            },
        )
    } else if is_text(word, b"nneg") {
        once(
            allowed.nneg,
            flags.nneg,
            Flags {
                nneg: true,
                ..flags
            },
        )
    } else if is_text(word, b"samesign") {
        once(
            allowed.samesign,
            flags.samesign,
            Flags {
                samesign: true,
                ..flags
            },
        )
    } else if is_text(word, b"disjoint") {
        once(
            allowed.disjoint,
            flags.disjoint,
            Flags {
                disjoint: true,
                ..flags
            },
        )
    } else {
        None
    }
}
