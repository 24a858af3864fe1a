//! What a piece lays.

ghost use Rattle.std.specs.Prelude.{◌≡◌, ◌≤◌, ◌++◌, ◌∷◌, [], pos, length, IfOk, OnOk};
ghost use Rattle.ir_pieces.specs.Pieces.{IsAt};
ghost use Rattle.ir_pieces.specs.Bounded.{edges_of};

use crate::made::{made, phi};
use crate::shown::{said, system_text};
use crate::words::{flags_of, number_of};
use ir_pieces::IrPiece;
use mix_system::System;
use std::alloc::Global;
use wrap_rows::Piece;
use wx_base::NoMemory;

/// `lay KIND FLAGS CONSTANT`: the variables, rows and clauses of a piece whose variables begin at 8.
pub fn lay_row(alloc: Global, call: &str) -> Result<String, NoMemory> {
    let mut words = call.split_whitespace();
    let kind = words.next().unwrap_or("");
    let flags = flags_of(words.next().unwrap_or(""));
    let constant = number_of(words.next().unwrap_or(""));
    if kind == "phi" {
        return laid_text(alloc, &phi(alloc)?);
    }
    if constant > 255 {
        return said(alloc, "no row");
    }
    match made(kind, flags, constant as u8) {
        Some(piece) => laid_text(alloc, &piece),
        None => said(alloc, "no row"),
    }
}

fn laid_text(alloc: Global, piece: &IrPiece) -> Result<String, NoMemory>
    requires at { IsAt piece.now 8 }
    requires edges { edges_of piece.now ≤ 2 }
{
    let mut system = base(alloc)?;
    lay_into(alloc, piece, &mut system)?;
    system_text(alloc, &system, 8)
}

fn lay_into(alloc: Global, piece: &IrPiece, into: &mut System) -> Result<(), NoMemory>
    requires at { IsAt piece.now 8 }
    requires edges { edges_of piece.now ≤ 2 }
    requires vars { length into.old.ranges ≡ 8 }
    requires rows { into.old.rows ≡ [] }
    requires clauses { into.old.clauses ≡ [] }
{
    let first = piece.declare(into)?;
    piece.lay(alloc, first, into)
}

/// The variables 0 and 1, and three operands of 8 bits.
pub fn base(alloc: Global) -> Result<System, NoMemory>
    ensures vars { IfOk result (λ system. length system.ranges ≡ 8) }
    ensures rows { IfOk result (λ system. system.rows ≡ []) }
    ensures clauses { IfOk result (λ system. system.clauses ≡ []) }
{
    let mut system = System::new(alloc);
    system.add_var(0, 0)?;
    system.add_var(1, 1)?;
    add_operand(&mut system)?;
    add_operand(&mut system)?;
    add_operand(&mut system)?;
    Ok(system)
}

fn add_operand(into: &mut System) -> Result<(), NoMemory>
    requires { length into.old.ranges ≤ 100 }
    ensures { OnOk result (into.new ≡ record into.old {
      ranges = into.old.ranges
          ++ (pos 0, pos 255)
          ∷ (pos 0, pos 1)
          ∷ [];
    }) }
{
    into.add_var(0, 255)?;
    into.add_var(0, 1)?;
    Ok(())
}
