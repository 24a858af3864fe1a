//! Laws of the definitions that contracts cite. Each is the contract of a function that does nothing.

ghost use Rattle.std.specs.Prelude.{◌≡◌, ◌↔◌, ◌+◌, ◌*◌, ◌<◌, ◌≤◌, ℕ, ℤ, pos, List, length, map, true, All, Any, Some, IfSome};
ghost use Rattle.std.specs.Option.{option_map};
ghost use Rattle.mix_system.specs.declared.row.Part.{Part};
ghost use Rattle.mix_system.specs.Fits.{IsTrueAt};
ghost use Rattle.wrap_rows.specs.Layout.{clause_from, StandsAt};
ghost use Rattle.ir_pieces.specs.declared.piece.IrPiece.{IrPiece};
ghost use Rattle.ir_pieces.specs.declared.list.Placed.{Placed};
ghost use Rattle.ir_pieces.specs.Pieces.{IsAt, ranges, layout, numbers, CanFill, CanSay, meaning};
ghost use Rattle.ir_pieces.specs.Choice.{piece_of, range_piece, ranged_value, value_of, computed, AreNumbers, AreOperands, AreGiven, AllBefore, IsSoundOp};
ghost use Rattle.ll_tree.specs.declared.op.Op.{Op};
ghost use Rattle.ll_tree.specs.declared.func.Range.{Range};
ghost use Rattle.ll_tree.specs.Formed as formed;
ghost use Rattle.mix_system.specs.Row.{number_at};
ghost use Rattle.wrap_rows.specs.Vars.{IsNumber};
ghost use Rattle.ll_rules.specs.Arithmetic.{is_linear};
ghost use Rattle.bit_rows.specs.declared.bitwise.BitOperand.{BitOperand};
ghost use Rattle.ir_pieces.specs.Bounded.{IsBounded, edges_of};
ghost use Rattle.ir_pieces.specs.Lists.{ArePlaced, edges_in, joined, AreInRanges, AllHold, AllSay, AreSound};

/// A piece lays at most 5 rows and 138 clauses over at most 98 variables of its own, and of a phi a row and four clauses more for each edge.
/// They name only variables before its end, and it fills in exactly its own.
pub fn a_piece_is_small()
    ensures bounded { (piece : IrPiece) (first : ℕ) → IsAt piece first
        → IsBounded first (edges_of piece) (ranges piece) (layout piece first) }
    ensures numbers { (piece : IrPiece) (point : List ℤ)
        → length (numbers piece point) ≡ length (ranges piece) }
{}

/// Where the rows of all pieces stand in a system, the clauses that are laid there are true at a point exactly where each piece's layout holds.
/// Where its own variables lie in their ranges too, the number and mark of each are its operation's value.
pub fn what_pieces_say()
    ensures laid { (placed : List Placed) (first : ℕ) (rows : List (List Part)) (point : List ℤ)
        → StandsAt first (joined placed).rows rows
        → All (Any (IsTrueAt rows point)) (map (clause_from first) (joined placed).clauses)
        ↔ AllHold placed point }
    ensures sound { (placed : List Placed) (from to : ℕ) (point : List ℤ)
        → ArePlaced from to placed → AllSay placed point
        → AreInRanges placed point → AllHold placed point → AreSound placed point }
{}

/// The piece of an operation that keeps the verifier's rules stands behind its operands; it can be filled in and read where they are values of their widths;
/// and it means what the operation computes of their values.
pub fn what_an_operation_has()
    ensures stands { (what : Op) (operands : List BitOperand) (first : ℕ)
        → IsSoundOp what → AreGiven what operands → AllBefore first operands
        → IfSome (piece_of what operands) (λ piece. IsAt piece first) }
    ensures takes { (what : Op) (operands : List BitOperand) (point : List ℤ)
        → AreNumbers point → AreOperands what operands point
        → IfSome (piece_of what operands) (λ piece. CanFill piece point × CanSay piece point) }
    ensures means { (what : Op) (operands : List BitOperand) (point : List ℤ)
        → is_linear what ≡ true → AreGiven what operands → AreOperands what operands point
        → option_map (λ piece. meaning piece point) (piece_of what operands)
        ≡ computed what (value_of operands point) }
{}

/// The piece of a parameter with a range can be filled in and read at each argument of its width, and means the argument, or poison where it isn't in the range.
pub fn what_a_range_has()
    ensures stands { (range : Range) (width number first : ℕ)
        → formed.IsWidth width → formed.IsRange width range → number < first
        → IfSome (range_piece (Some range) width number) (λ piece. IsAt piece first) }
    ensures takes { (range : Range) (width number : ℕ) (point : List ℤ)
        → IsNumber width (number_at point number)
        → IfSome (range_piece (Some range) width number)
        (λ piece. CanFill piece point × CanSay piece point) }
    ensures means { (range : Range) (width number n : ℕ) (point : List ℤ)
        → formed.IsRange width range → number_at point number ≡ pos n
        → IfSome (range_piece (Some range) width number)
        (λ piece. meaning piece point ≡ ranged_value range n) }
{}

/// All pieces of a list lay at most 5 rows and 138 clauses each, and of phis a row and four clauses more for each edge.
pub fn what_pieces_lay_is_little()
    ensures rows { (placed : List Placed) (from to : ℕ) → ArePlaced from to placed
        → length (joined placed).rows ≤ 5 * length placed + edges_in placed }
    ensures clauses { (placed : List Placed) (from to : ℕ) → ArePlaced from to placed
        → length (joined placed).clauses ≤ 138 * length placed + 4 * edges_in placed }
{}
