//! Laws of the definitions that contracts cite. Each is the contract of a function that does nothing.

ghost use Rattle.std.specs.Prelude.{◌≡◌, ℕ, List};
ghost use Rattle.ll_tree.specs.declared.block.Instr.{Instr};
ghost use Rattle.ll_tree.specs.declared.block.Phi.{Phi};
ghost use Rattle.ll_rules.specs.Items.{Item, OfInstr, OfPhi};
ghost use Rattle.ll_verifier.specs.Sound.{SoundFunc, IsSound};
ghost use Rattle.ir_pieces.specs.declared.piece.IrPiece.{IrPiece};
ghost use Rattle.path_encoding.specs.declared.spots.PathSpots.{PathSpots};
ghost use Rattle.value_pieces.specs.Pieces.{operands_of, IsPhiPiece};
ghost use Rattle.piece_reads.specs.Given.{given_before, StandsBehind, AgreeOn};

/// An operation and a phi read only the spots of names that are given before them: over other spots that agree on
/// these the operands are the same, and a phi's piece is its piece.
pub fn pieces_read_what_is_given()
    ensures operations { (it : SoundFunc) (spots other : PathSpots) (at : ℕ) (front : List Item)
        → IsSound it → AgreeOn it (given_before it at front) spots other
        → (instr : Instr) → StandsBehind it at front (OfInstr instr)
        → operands_of it other instr.op ≡ operands_of it spots instr.op }
    ensures phis { (it : SoundFunc) (spots other : PathSpots) (at : ℕ) (front : List Item)
        → IsSound it → AgreeOn it (given_before it at front) spots other
        → (phi : Phi) (piece : IrPiece) → StandsBehind it at front (OfPhi phi)
        → IsPhiPiece it spots at phi piece → IsPhiPiece it other at phi piece }
{}
