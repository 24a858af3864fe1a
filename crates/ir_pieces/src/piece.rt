ghost use Rattle.ir_pieces.specs.Pieces as spec;

use bit_rows::Bitwise;
use div_rows::{Abs, Extreme, SignedDivision, UnsignedDivision};
use ir_meaning::Val;
use mix_system::System;
use std::alloc::Global;
use wrap_rows::{
    Compare, Phi, Piece, Ranged, Scaled, Select, Sext, ShiftOut, ShiftRight, Sum, Trunc, ValueVars,
    Zext,
};
use wx_base::NoMemory;

/// A piece of any operation, of a phi, or of a parameter with a range.
#[derive(Debug, Drop)]
pub enum IrPiece {
    Zext(Zext),
    Sext(Sext),
    Trunc(Trunc),
    Select(Select),
    Ranged(Ranged),
    Sum(Sum),
    Scaled(Scaled),
    ShiftOut(ShiftOut),
    ShiftRight(ShiftRight),
    Compare(Compare),
    Phi(Phi),
    Bitwise(Bitwise),
    UnsignedDivision(UnsignedDivision),
    SignedDivision(SignedDivision),
    Abs(Abs),
    Extreme(Extreme),
}

impl Piece for IrPiece {
    ghost use Rattle.ir_pieces.specs.Pieces.{IsAt, ranges, layout, vars, CanFill, CanSay, numbers, meaning};

    ghost is_at = { IsAt };

    ghost ranges = { ranges };

    ghost layout = { layout };

    ghost vars = { vars };

    ghost can_fill = { CanFill };

    ghost can_say = { CanSay };

    ghost numbers = { numbers };

    ghost meaning = { meaning };

    fn declare(&self, into: &mut System) -> Result<u32, NoMemory> {
        match self {
            IrPiece::Zext(piece) => piece.declare(into),
            IrPiece::Sext(piece) => piece.declare(into),
            IrPiece::Trunc(piece) => piece.declare(into),
            IrPiece::Select(piece) => piece.declare(into),
            IrPiece::Ranged(piece) => piece.declare(into),
            IrPiece::Sum(piece) => piece.declare(into),
            IrPiece::Scaled(piece) => piece.declare(into),
            IrPiece::ShiftOut(piece) => piece.declare(into),
            IrPiece::ShiftRight(piece) => piece.declare(into),
            IrPiece::Compare(piece) => piece.declare(into),
            IrPiece::Phi(piece) => piece.declare(into),
            IrPiece::Bitwise(piece) => piece.declare(into),
            IrPiece::UnsignedDivision(piece) => piece.declare(into),
            IrPiece::SignedDivision(piece) => piece.declare(into),
            IrPiece::Abs(piece) => piece.declare(into),
            IrPiece::Extreme(piece) => piece.declare(into),
        }
    }

    fn lay(&self, alloc: Global, first: u32, into: &mut System) -> Result<(), NoMemory> {
        match self {
            IrPiece::Zext(piece) => piece.lay(alloc, first, into),
            IrPiece::Sext(piece) => piece.lay(alloc, first, into),
            IrPiece::Trunc(piece) => piece.lay(alloc, first, into),
            IrPiece::Select(piece) => piece.lay(alloc, first, into),
            IrPiece::Ranged(piece) => piece.lay(alloc, first, into),
            IrPiece::Sum(piece) => piece.lay(alloc, first, into),
            IrPiece::Scaled(piece) => piece.lay(alloc, first, into),
            IrPiece::ShiftOut(piece) => piece.lay(alloc, first, into),
            IrPiece::ShiftRight(piece) => piece.lay(alloc, first, into),
            IrPiece::Compare(piece) => piece.lay(alloc, first, into),
            IrPiece::Phi(piece) => piece.lay(alloc, first, into),
            IrPiece::Bitwise(piece) => piece.lay(alloc, first, into),
            IrPiece::UnsignedDivision(piece) => piece.lay(alloc, first, into),
            IrPiece::SignedDivision(piece) => piece.lay(alloc, first, into),
            IrPiece::Abs(piece) => piece.lay(alloc, first, into),
            IrPiece::Extreme(piece) => piece.lay(alloc, first, into),
        }
    }

    fn fill(&self, first: u32, point: &mut [i128]) {
        match self {
            IrPiece::Zext(piece) => piece.fill(first, point),
            IrPiece::Sext(piece) => piece.fill(first, point),
            IrPiece::Trunc(piece) => piece.fill(first, point),
            IrPiece::Select(piece) => piece.fill(first, point),
            IrPiece::Ranged(piece) => piece.fill(first, point),
            IrPiece::Sum(piece) => piece.fill(first, point),
            IrPiece::Scaled(piece) => piece.fill(first, point),
            IrPiece::ShiftOut(piece) => piece.fill(first, point),
            IrPiece::ShiftRight(piece) => piece.fill(first, point),
            IrPiece::Compare(piece) => piece.fill(first, point),
            IrPiece::Phi(piece) => piece.fill(first, point),
            IrPiece::Bitwise(piece) => piece.fill(first, point),
            IrPiece::UnsignedDivision(piece) => piece.fill(first, point),
            IrPiece::SignedDivision(piece) => piece.fill(first, point),
            IrPiece::Abs(piece) => piece.fill(first, point),
            IrPiece::Extreme(piece) => piece.fill(first, point),
        }
    }

    fn sound(&self, first: u32, point: &[i128]) -> Val {
        match self {
            IrPiece::Zext(piece) => piece.sound(first, point),
            IrPiece::Sext(piece) => piece.sound(first, point),
            IrPiece::Trunc(piece) => piece.sound(first, point),
            IrPiece::Select(piece) => piece.sound(first, point),
            IrPiece::Ranged(piece) => piece.sound(first, point),
            IrPiece::Sum(piece) => piece.sound(first, point),
            IrPiece::Scaled(piece) => piece.sound(first, point),
            IrPiece::ShiftOut(piece) => piece.sound(first, point),
            IrPiece::ShiftRight(piece) => piece.sound(first, point),
            IrPiece::Compare(piece) => piece.sound(first, point),
            IrPiece::Phi(piece) => piece.sound(first, point),
            IrPiece::Bitwise(piece) => piece.sound(first, point),
            IrPiece::UnsignedDivision(piece) => piece.sound(first, point),
            IrPiece::SignedDivision(piece) => piece.sound(first, point),
            IrPiece::Abs(piece) => piece.sound(first, point),
            IrPiece::Extreme(piece) => piece.sound(first, point),
        }
    }

    fn stays_calm(&self, first: u32) {
        match self {
            IrPiece::Zext(piece) => piece.stays_calm(first),
            IrPiece::Sext(piece) => piece.stays_calm(first),
            IrPiece::Trunc(piece) => piece.stays_calm(first),
            IrPiece::Select(piece) => piece.stays_calm(first),
            IrPiece::Ranged(piece) => piece.stays_calm(first),
            IrPiece::Sum(piece) => piece.stays_calm(first),
            IrPiece::Scaled(piece) => piece.stays_calm(first),
            IrPiece::ShiftOut(piece) => piece.stays_calm(first),
            IrPiece::ShiftRight(piece) => piece.stays_calm(first),
            IrPiece::Compare(piece) => piece.stays_calm(first),
            IrPiece::Phi(piece) => piece.stays_calm(first),
            IrPiece::Bitwise(piece) => piece.stays_calm(first),
            IrPiece::UnsignedDivision(piece) => piece.stays_calm(first),
            IrPiece::SignedDivision(piece) => piece.stays_calm(first),
            IrPiece::Abs(piece) => piece.stays_calm(first),
            IrPiece::Extreme(piece) => piece.stays_calm(first),
        }
    }

    fn vars(&self, first: u32) -> ValueVars {
        match self {
            IrPiece::Zext(piece) => piece.vars(first),
            IrPiece::Sext(piece) => piece.vars(first),
            IrPiece::Trunc(piece) => piece.vars(first),
            IrPiece::Select(piece) => piece.vars(first),
            IrPiece::Ranged(piece) => piece.vars(first),
            IrPiece::Sum(piece) => piece.vars(first),
            IrPiece::Scaled(piece) => piece.vars(first),
            IrPiece::ShiftOut(piece) => piece.vars(first),
            IrPiece::ShiftRight(piece) => piece.vars(first),
            IrPiece::Compare(piece) => piece.vars(first),
            IrPiece::Phi(piece) => piece.vars(first),
            IrPiece::Bitwise(piece) => piece.vars(first),
            IrPiece::UnsignedDivision(piece) => piece.vars(first),
            IrPiece::SignedDivision(piece) => piece.vars(first),
            IrPiece::Abs(piece) => piece.vars(first),
            IrPiece::Extreme(piece) => piece.vars(first),
        }
    }
}
