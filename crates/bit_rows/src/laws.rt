//! Laws of the definitions that contracts cite. Each is the contract of a function that does nothing.

ghost use Rattle.std.specs.Prelude.{◌≡◌, ◌<◌, ◌↔◌, ℕ, ℤ, pos, List, [], slice_index_or, unsigned_abs, All, Any};
ghost use Rattle.mix_system.specs.declared.row.Part.{Part};
ghost use Rattle.mix_system.specs.Fits.{IsTrueAt};
ghost use Rattle.mix_system.specs.Row.{number_at};
ghost use Rattle.wrap_rows.specs.Blocks.{equals};
ghost use Rattle.wrap_rows.specs.Vars.{IsNumber, IsMark};
ghost use Rattle.wrap_rows.specs.Piece.{AreIn};
ghost use Rattle.bit_rows.specs.declared.bits.BitVars.TheVariants.{Helpers};
ghost use Rattle.bit_rows.specs.declared.bitwise.BitKind.{BitKind};
ghost use Rattle.bit_rows.specs.Bits.{bit_ranges, bits_row, HaveBits};
ghost use Rattle.bit_rows.specs.Bitwise.{bit_clauses, bit_of};

/// The clauses of the equation of a number and its bits are true exactly where these variables are the number's bits.
pub fn what_bits_say()
    ensures { (rows : List (List Part)) (point : List ℤ) (row width number first : ℕ)
        → slice_index_or rows row [] ≡ bits_row width number first
        → IsNumber width (number_at point number)
        → AreIn first (bit_ranges width) point
        → All (Any (IsTrueAt rows point)) (equals row (pos 0))
        ↔ HaveBits width (Helpers first) (unsigned_abs (number_at point number)) point }
{}

/// The clauses of a bit are true exactly where it is what the operation gives on the bits of the operands.
pub fn what_a_bit_says()
    ensures { (rows : List (List Part)) (point : List ℤ) (kind : BitKind) (x a b p q : ℕ)
        → p < 2 → q < 2
        → number_at point a ≡ pos p → number_at point b ≡ pos q → IsMark (number_at point x)
        → All (Any (IsTrueAt rows point)) (bit_clauses kind x a b)
        ↔ (number_at point x ≡ pos (bit_of kind p q)) }
{}
