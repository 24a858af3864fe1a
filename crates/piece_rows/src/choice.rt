//! The piece of an operation.

use crate::shown::{piece_text, said};
use crate::words::{bin_kind, cast_kind, flags_of, number_of, operand_of, pred_of};
use bit_rows::BitOperand;
use ir_pieces::piece_of;
use ll_tree::{Flags, Op, Operand};
use std::alloc::Global;
use wx_base::NoMemory;

/// `piece KIND FLAGS WIDTH TO X Y Z`: the piece of an operation over these operands.
pub fn piece_row(alloc: Global, call: &str) -> Result<String, NoMemory> {
    let mut words = call.split_whitespace();
    let kind = words.next().unwrap_or("");
    let flags = flags_of(words.next().unwrap_or(""));
    let width = number_of(words.next().unwrap_or(""));
    let to = number_of(words.next().unwrap_or(""));
    let operands = [
        operand_of(words.next().unwrap_or(""), 0),
        operand_of(words.next().unwrap_or(""), 1),
        operand_of(words.next().unwrap_or(""), 2),
    ];
    match op_of(kind, flags, width, to) {
        Some(op) => chosen_text(alloc, &op, &operands),
        None => said(alloc, "no row"),
    }
}

fn chosen_text(alloc: Global, op: &Op, operands: &[BitOperand]) -> Result<String, NoMemory> {
    match piece_of(op, operands) {
        Some(piece) => piece_text(alloc, &piece),
        None => said(alloc, "no piece"),
    }
}

// The operation of a word. Its own operands are placeholders, for they are given by their variables.
fn op_of(word: &str, flags: Flags, width: u32, to: u32) -> Option<Op> {
    if let Some(kind) = bin_kind(word) {
        return Some(Op::Bin {
            kind,
            flags,
            width,
            left: Operand::Poison,
            right: Operand::Poison,
        });
    }
    if let Some(pred) = pred_of(word) {
        return Some(Op::Cmp {
            pred,
            flags,
            width,
            left: Operand::Poison,
            right: Operand::Poison,
        });
    }
    if let Some(kind) = cast_kind(word) {
        return Some(Op::Cast {
            kind,
            flags,
            from: width,
            arg: Operand::Poison,
            to,
        });
    }
    other_op(word, width)
}

fn other_op(word: &str, width: u32) -> Option<Op> {
    match word {
        "select" => Some(Op::Select {
            width,
            cond: Operand::Poison,
            yes: Operand::Poison,
            no: Operand::Poison,
        }),
        "abs" => Some(Op::Abs {
            width,
            arg: Operand::Poison,
            strict: false,
        }),
        "strict_abs" => Some(Op::Abs {
            width,
            arg: Operand::Poison,
            strict: true,
        }),
        "assume" => Some(Op::Assume {
            cond: Operand::Poison,
        }),
        _ => None,
    }
}
