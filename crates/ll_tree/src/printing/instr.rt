ghost use Rattle.std.specs.Prelude.{◌≡◌, ◌∷◌, ◌++◌, [], codes, OnOk};
ghost use Rattle.ll_tree.specs.Words.{is_called, bin_word};
ghost use Rattle.ll_tree.specs.Pieces.{piece_text, written, Word, Bits, Intrinsic, Mark, Blank};
ghost use Rattle.ll_tree.specs.Text.{flag, flag_pieces, typed, pair, bin_pieces, truth, abs_pieces, assume_start, assume_pieces, op_pieces, result_pieces, has_result, instr_pieces};

use super::token::{push_local, push_operand, push_type};
use crate::naming::push;
use crate::{BinKind, Flags, Instr, Op, Operand};
use wx_base::NoMemory;

/// An instruction: its result's name and `=`, where it has one, and its operation.
pub fn push_instr(text: &mut Vec<u8>, instr: &Instr) -> Result<(), NoMemory>
    ensures { OnOk result (text.new.items ≡ text.old.items ++ written (instr_pieces instr.now)) }
{
    if has_result(&instr.op) {
        push_local(text, &instr.name)?;
        push(text, b" = ")?;
    }
    push_op(text, &instr.op)
}

fn has_result(op: &Op) -> bool
    ensures { result ≡ has_result op.now }
{
    !matches!(op, Op::Assume { .. })
}

#[tactic(auto, unfolding(crate::specs::Text::op_pieces))]
fn push_op(text: &mut Vec<u8>, op: &Op) -> Result<(), NoMemory>
    ensures { OnOk result (text.new.items ≡ text.old.items ++ written (op_pieces op.now)) }
{
    match op {
        Op::Bin {
            kind,
            flags,
            width,
            left,
            right,
        } => push_bin(text, *kind, flags, *width, left, right),
        Op::Cmp {
            pred,
            flags,
            width,
            left,
            right,
        } => {
            push(text, b"icmp ")?;
            push_flags(text, flags)?;
            push(text, pred.word())?;
            push(text, b" ")?;
            push_pair(text, *width, left, right)
        }
        Op::Cast {
            kind,
            flags,
            from,
            arg,
            to,
        } => {
            push(text, kind.word())?;
            push(text, b" ")?;
            push_flags(text, flags)?;
            push_typed(text, *from, arg)?;
            push(text, b" to ")?;
            push_type(text, *to)
        }
        Op::Select {
            width,
            cond,
            yes,
            no,
        } => {
            push(text, b"select ")?;
            push_typed(text, 1, cond)?;
            push_next_typed(text, *width, yes)?;
            push_next_typed(text, *width, no)
        }
        Op::Abs { width, arg, strict } => push_abs(text, *width, arg, *strict),
        Op::Assume { cond } => push_assume(text, cond),
    }
}

fn push_abs(text: &mut Vec<u8>, width: u32, arg: &Operand, strict: bool) -> Result<(), NoMemory>
    ensures { OnOk result (text.new.items ≡ text.old.items
        ++ written (abs_pieces width arg.now strict)) }
{
    push_called(text, b"abs", width)?;
    push_typed(text, width, arg)?;
    push_next_truth(text, strict)?;
    push(text, b")")
}

fn push_next_truth(text: &mut Vec<u8>, value: bool) -> Result<(), NoMemory>
    ensures { OnOk result (text.new.items ≡ text.old.items
        ++ written (Mark 44 ∷ Blank ∷ Bits 1 ∷ Blank ∷ truth value ∷ [])) }
{
    push(text, b", ")?;
    push_type(text, 1)?;
    push(text, b" ")?;
    push_truth(text, value)
}

fn push_assume(text: &mut Vec<u8>, cond: &Operand) -> Result<(), NoMemory>
    ensures { OnOk result (text.new.items ≡ text.old.items ++ written (assume_pieces cond.now)) }
{
    push_assume_start(text)?;
    push_typed(text, 1, cond)?;
    push(text, b")")
}

#[tactic(auto, unfolding(crate::specs::Naming::name_text))]
fn push_assume_start(text: &mut Vec<u8>) -> Result<(), NoMemory>
    ensures { OnOk result (text.new.items ≡ text.old.items ++ written assume_start) }
{
    push(text, b"call void @llvm.assume(")
}

fn push_bin(
    text: &mut Vec<u8>,
    kind: BinKind,
    flags: &Flags,
    width: u32,
    left: &Operand,
    right: &Operand,
) -> Result<(), NoMemory>
    ensures { OnOk result (text.new.items ≡ text.old.items
        ++ written (bin_pieces (is_called kind) kind flags.now width left.now right.now)) }
{
    if kind.is_called() {
        push_called(text, kind.word(), width)?;
        push_typed(text, width, left)?;
        push_next_typed(text, width, right)?;
        push(text, b")")
    } else {
        push(text, kind.word())?;
        push(text, b" ")?;
        push_flags(text, flags)?;
        push_pair(text, width, left, right)
    }
}

// The beginning of a call, up to its parenthesis.
fn push_called(text: &mut Vec<u8>, word: &[u8], width: u32) -> Result<(), NoMemory>
    ensures { OnOk result (text.new.items ≡ text.old.items
        ++ written (Word (codes "call") ∷ Blank ∷ Bits width ∷ Blank
        ∷ Intrinsic word.now width ∷ Mark 40 ∷ [])) }
{
    push(text, b"call ")?;
    push_type(text, width)?;
    push(text, b" @llvm.")?;
    push(text, word)?;
    push(text, b".")?;
    push_type(text, width)?;
    push(text, b"(")
}

/// A type and an operand of it.
pub fn push_typed(text: &mut Vec<u8>, width: u32, operand: &Operand) -> Result<(), NoMemory>
    ensures { OnOk result (text.new.items ≡ text.old.items ++ written (typed width operand.now)) }
{
    push_type(text, width)?;
    push(text, b" ")?;
    push_operand(text, width, operand)
}

fn push_next_typed(text: &mut Vec<u8>, width: u32, operand: &Operand) -> Result<(), NoMemory>
    ensures { OnOk result (text.new.items ≡ text.old.items
        ++ written (Mark 44 ∷ Blank ∷ typed width operand.now)) }
{
    push(text, b", ")?;
    push_typed(text, width, operand)
}

fn push_truth(text: &mut Vec<u8>, value: bool) -> Result<(), NoMemory>
    ensures { OnOk result (text.new.items ≡ text.old.items ++ piece_text (truth value)) }
{
    if value {
        push(text, b"true")
    } else {
        push(text, b"false")
    }
}

fn push_pair(
    text: &mut Vec<u8>,
    width: u32,
    left: &Operand,
    right: &Operand,
) -> Result<(), NoMemory>
    ensures { OnOk result (text.new.items ≡ text.old.items
        ++ written (pair width left.now right.now)) }
{
    push_typed(text, width, left)?;
    push(text, b", ")?;
    push_operand(text, width, right)
}

#[tactic(auto, unfolding(crate::specs::Text::flag_pieces))]
fn push_flags(text: &mut Vec<u8>, flags: &Flags) -> Result<(), NoMemory>
    ensures { OnOk result (text.new.items ≡ text.old.items ++ written (flag_pieces flags.now)) }
{
    push_flag(text, flags.nuw, b"nuw")?;
    push_flag(text, flags.nsw, b"nsw")?;
    push_flag(text, flags.exact, b"exact")?;
    push_flag(text, flags.nneg, b"nneg")?;
    push_flag(text, flags.samesign, b"samesign")?;
    push_flag(text, flags.disjoint, b"disjoint")
}

/// A word and a blank behind it, where the flag is set.
pub fn push_flag(text: &mut Vec<u8>, is_set: bool, word: &[u8]) -> Result<(), NoMemory>
    ensures { OnOk result (text.new.items ≡ text.old.items ++ written (flag is_set word.now)) }
{
    if is_set {
        push(text, word)?;
        push(text, b" ")?;
    }
    Ok(())
}
