//! The words of rows.

use bit_rows::BitOperand;
use ll_tree::{BinKind, CastKind, Flags, Pred};
use wrap_rows::ValueVars;

/// Flags joined by commas, in any order; `-` is none.
pub fn flags_of(word: &str) -> Flags {
    let mut flags = Flags {
        nuw: false,
        nsw: false,
        exact: false,
        nneg: false,
        samesign: false,
        disjoint: false,
    };
    for flag in word.split(',') {
        match flag {
            "nuw" => flags.nuw = true,
            "nsw" => flags.nsw = true,
            "exact" => flags.exact = true,
            "nneg" => flags.nneg = true,
            "samesign" => flags.samesign = true,
            "disjoint" => flags.disjoint = true,
            _ => {}
        }
    }
    flags
}

pub fn number_of(word: &str) -> u32 {
    word.parse::<u32>().unwrap_or(0)
}

/// The operand at a slot: a number or `poison` is a literal, and any other word stands for the slot's variables.
/// A literal from 2 on stands at the slot's number.
pub fn operand_of(word: &str, slot: u8) -> BitOperand {
    let own = 2 + 2 * u32::from(slot);
    if word == "poison" {
        return BitOperand {
            vars: ValueVars { number: 0, mark: 1 },
            literal: Some(0),
        };
    }
    match word.parse::<u32>() {
        Ok(number) => BitOperand {
            vars: ValueVars {
                number: if number < 2 { number } else { own },
                mark: 0,
            },
            literal: Some(number),
        },
        Err(_) => BitOperand {
            vars: ValueVars {
                number: own,
                mark: own + 1,
            },
            literal: None,
        },
    }
}

pub fn bin_kind(word: &str) -> Option<BinKind> {
    match word {
        "add" => Some(BinKind::Add),
        "sub" => Some(BinKind::Sub),
        "mul" => Some(BinKind::Mul),
        "shl" => Some(BinKind::Shl),
        "lshr" => Some(BinKind::Lshr),
        "ashr" => Some(BinKind::Ashr),
        "and" => Some(BinKind::And),
        "or" => Some(BinKind::Or),
        "xor" => Some(BinKind::Xor),
        "udiv" => Some(BinKind::Udiv),
        "sdiv" => Some(BinKind::Sdiv),
        "urem" => Some(BinKind::Urem),
        "srem" => Some(BinKind::Srem),
        "smin" => Some(BinKind::Smin),
        "smax" => Some(BinKind::Smax),
        "umin" => Some(BinKind::Umin),
        "umax" => Some(BinKind::Umax),
        _ => None,
    }
}

pub fn cast_kind(word: &str) -> Option<CastKind> {
    match word {
        "zext" => Some(CastKind::Zext),
        "sext" => Some(CastKind::Sext),
        "trunc" => Some(CastKind::Trunc),
        _ => None,
    }
}

pub fn pred_of(word: &str) -> Option<Pred> {
    match word {
        "eq" => Some(Pred::Eq),
        "ne" => Some(Pred::Ne),
        "ugt" => Some(Pred::Ugt),
        "uge" => Some(Pred::Uge),
        "ult" => Some(Pred::Ult),
        "ule" => Some(Pred::Ule),
        "sgt" => Some(Pred::Sgt),
        "sge" => Some(Pred::Sge),
        "slt" => Some(Pred::Slt),
        "sle" => Some(Pred::Sle),
        _ => None,
    }
}
