//! Laws of the definitions that contracts cite. Each is the contract of a function that does nothing.

ghost use Rattle.std.specs.Prelude.{◌<◌, ℕ, Bool, ℤ, List, length, All};
ghost use Rattle.ll_verifier.specs.Sound.{SoundFunc, IsSound};
ghost use Rattle.ir_pieces.specs.declared.piece.IrPiece.{IrPiece};
ghost use Rattle.ir_pieces.specs.declared.list.Placed.{Placed};
ghost use Rattle.ir_pieces.specs.Pieces.{ranges, layout};
ghost use Rattle.ir_pieces.specs.Lists.{ArePlaced, AreInRanges, AllHold};
ghost use Rattle.path_encoding.specs.declared.spots.PathSpots.{PathSpots};
ghost use Rattle.path_encoding.specs.Filled.{ChangesOnly};
ghost use Rattle.piece_values.specs.Owners.{ArePiecesOf};
ghost use Rattle.piece_vars.specs.Named.{NamesOnly, Own, Passing};
ghost use Rattle.piece_vars.specs.Reads.{Reads};
ghost use Rattle.piece_vars.specs.Cases.{AreCasesApart, AreCasesBetween};

/// Where a piece's own variables and those of its operands pass a test, so do all that its rows and clauses name.
pub fn a_piece_names_its_operands_alone()
    ensures { (test : ℕ → Bool) (piece : IrPiece) (first : ℕ)
        → Own (Passing test) first (length (ranges piece)) → Reads (Passing test) piece
        → NamesOnly (Passing test) (layout piece first) }
{}

/// Where only the numbers of cases are changed, a function's pieces lie in their ranges and hold as before.
pub fn cases_change_no_piece()
    ensures hold { (it : SoundFunc) (spots : PathSpots) (placed : List Placed) (from to : ℕ)
        → AreCasesApart spots → ArePiecesOf it spots placed → ArePlaced from to placed
        → All (λ var. var < from) spots.cases.items
        → (point other : List ℤ) → ChangesOnly spots.cases.items point other
        → AllHold placed point → AllHold placed other }
    ensures within { (it : SoundFunc) (spots : PathSpots) (placed : List Placed) (from to : ℕ)
        → AreCasesApart spots → ArePlaced from to placed
        → All (λ var. var < from) spots.cases.items
        → (point other : List ℤ) → ChangesOnly spots.cases.items point other
        → AreInRanges placed point → AreInRanges placed other }
{}

/// Cases whose variables stand behind those of edges and constants and before those of all pieces have no variable that
/// a piece reads.
pub fn cases_in_order_are_apart()
    ensures { (it : SoundFunc) (spots : PathSpots) (placed : List Placed) (from to last : ℕ)
        → IsSound it → AreCasesBetween it spots from to
        → ArePiecesOf it spots placed → ArePlaced to last placed
        → AreCasesApart spots }
{}
