ghost use Rattle.std.specs.Prelude.{◌≡◌, ◌+◌, ◌^◌, ◌<◌, ◌++◌, ◌∷◌, [], length, IfOk, OnOk};
ghost use Rattle.wrap_rows.specs.Piece.{Lays};
ghost use Rattle.wrap_rows.specs.Small.{IsCompact};
ghost use Rattle.ir_pieces.specs.Pieces.{IsAt, ranges, vars};
ghost use Rattle.ir_pieces.specs.Lists.{ArePlaced, joined, AreInRanges, AllHold, AgreeOutside, AreReady};

use crate::IrPiece;
use mix_system::System;
use std::alloc::Global;
use wrap_rows::{Piece, ValueVars};
use wx_base::NoMemory;

/// A piece, and the first of its own variables.
#[derive(Debug, Drop)]
pub struct Placed {
    pub first: u32,
    pub piece: IrPiece,
}

/// Adds a piece's own variables to the system and the piece to the list, and gives where its value stands.
///
/// After want of memory some of its variables may stand, and the system is to be given up.
pub fn place(
    list: &mut Vec<Placed>,
    piece: IrPiece,
    into: &mut System,
) -> Result<ValueVars, NoMemory>
    requires at { IsAt piece (length into.old.ranges) }
    requires room { length into.old.ranges + length (ranges piece) < 2 ^ 31 }
    ensures vars { IfOk result (λ found. found ≡ vars piece (length into.old.ranges)) }
    ensures list { OnOk result (list.new.items
        ≡ list.old.items ++ record { first = length into.old.ranges; piece = piece } ∷ []) }
    ensures ok { OnOk result (into.new ≡ record into.old {
      ranges = into.old.ranges ++ ranges piece;
    }) }
    ensures placed { ArePlaced 0 (length into.old.ranges) list.old.items
        → OnOk result (ArePlaced 0 (length into.new.ranges) list.new.items) }
    ensures compact { IsCompact into.old → OnOk result (IsCompact into.new) }
{
    let first = piece.declare(into)?;
    piece.stays_calm(first);
    let vars = piece.vars(first);
    list.push(Placed { first, piece })?;
    Ok(vars)
}

/// Adds the rows and clauses of all pieces, in order.
///
/// After want of memory some of them may stand, and the system is to be given up.
pub fn lay_all(alloc: Global, placed: &[Placed], into: &mut System) -> Result<(), NoMemory>
    requires placed { ArePlaced 0 (length into.old.ranges) placed.now }
    requires few_vars { length into.old.ranges < 2 ^ 31 }
    requires rows { length into.old.rows + length (joined placed.now).rows < 2 ^ 31 }
    requires clauses { length into.old.clauses + length (joined placed.now).clauses < 2 ^ 31 }
    ensures ok { OnOk result (Lays (joined placed.now) into.old into.new) }
    ensures compact { IsCompact into.old → OnOk result (IsCompact into.new) }
{
    for it in placed {
        it.piece.stays_calm(it.first);
        it.piece.lay(alloc, it.first, into)?;
    }
    Ok(())
}

/// Writes the numbers of all pieces' own variables, in order, and changes no others. It takes no memory.
///
/// Whatever the numbers of the other variables are, the pieces' own then lie in their ranges, and all their clauses are true.
pub fn fill_all(placed: &[Placed], point: &mut [i128])
    requires placed { ArePlaced 0 (length point.old) placed.now }
    requires few { length point.old < 2 ^ 31 }
    requires operands { AreReady (AgreeOutside placed.now point.old) placed.now }
    ensures outside { AgreeOutside placed.now point.old point.new }
    ensures in_ranges { AreInRanges placed.now point.new }
    ensures complete { AllHold placed.now point.new }
{
    for it in placed {
        it.piece.fill(it.first, point);
    }
}
