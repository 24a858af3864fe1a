//! Laws of the definitions that contracts cite. Each is the contract of a function that does nothing.

ghost use Rattle.std.specs.Prelude.{◌≡◌, ◌<◌, ◌^◌, ◌-ℤ◌, ◌*ℤ◌, ◌⊎◌, ◌↔◌, ◌++◌, ℕ, ℤ, pos, List, [], slice_index_or, length, map, All, Any};
ghost use Rattle.mix_system.specs.declared.literal.Lit.{Lit};
ghost use Rattle.mix_system.specs.declared.literal.Term.TheVariants.{Row};
ghost use Rattle.mix_system.specs.declared.row.Part.{Part};
ghost use Rattle.mix_system.specs.Fits.{IsTrueAt, term_value};
ghost use Rattle.mix_system.specs.Row.{number_at};
ghost use Rattle.mix_system.specs.Calm.{IsCalm};
ghost use Rattle.mix_system.specs.System.{System};
ghost use Rattle.wrap_rows.specs.Blocks.{equals, marks, sign_of, sign_row, sign_clauses, compared, StandsSo};
ghost use Rattle.ll_tree.specs.declared.op.Pred.{Pred};
ghost use Rattle.ir_meaning.specs.Whole.{IsWidth, signed};
ghost use Rattle.wrap_rows.specs.Vars.{IsNumber, IsMark};
ghost use Rattle.wrap_rows.specs.Layout.{Layout, IsOfRows, StandsAt, clause_from, Holds};
ghost use Rattle.wrap_rows.specs.Piece.{Lays};
ghost use Rattle.wrap_rows.specs.Small.{IsNarrow, IsSmall, IsCompact};

/// Where a layout's rows stand in a system, the clauses that it lays there are true at a point exactly where the layout holds there.
pub fn what_is_laid_says_what_the_layout_says()
    ensures { (layout : Layout) (point : List ℤ) (first : ℕ) (rows : List (List Part))
        → StandsAt first layout.rows rows
        → All (All (λ lit. IsOfRows (length layout.rows) lit.term)) layout.clauses
        → All (Any (IsTrueAt rows point)) (map (clause_from first) layout.clauses)
        ↔ Holds layout point }
{}

/// The two clauses of an equation are true exactly where the row's sum is the number.
pub fn what_an_equation_says()
    ensures { (rows : List (List Part)) (point : List ℤ) (row : ℕ) (number : ℤ)
        → All (Any (IsTrueAt rows point)) (equals row number)
        ↔ (term_value rows point (Row row) ≡ number) }
{}

/// The clauses of marks are true exactly where the value's mark is 1 just where an operand's is, or a listed literal is true.
pub fn what_marks_say()
    ensures { (rows : List (List Part)) (point : List ℤ) (mark : ℕ) (operands : List ℕ)
        (listed : List Lit)
        → IsMark (number_at point mark) → All (λ operand. IsMark (number_at point operand)) operands
        → All (Any (IsTrueAt rows point)) (marks mark operands listed)
        ↔ ((number_at point mark ≡ pos 1)
        ↔ (Any (λ operand. number_at point operand ≡ pos 1) operands
        ⊎ Any (IsTrueAt rows point) listed)) }
{}

/// The clauses of a comparison are true exactly where the number is 1 just where the row's sum stands to 0 as the predicate says.
pub fn what_a_comparison_says()
    ensures { (rows : List (List Part)) (point : List ℤ) (pred : Pred) (x row : ℕ)
        → IsMark (number_at point x)
        → All (Any (IsTrueAt rows point)) (compared pred x row)
        ↔ ((number_at point x ≡ pos 1) ↔ StandsSo pred (term_value rows point (Row row))) }
{}

/// The clauses of a sign are true exactly where it is 1 just where the operand's signed reading is negative. The signed reading is the operand less `2^width` times the sign.
pub fn what_a_sign_says()
    ensures says { (rows : List (List Part)) (point : List ℤ) (row width number sign : ℕ)
        → IsWidth width
        → slice_index_or rows row [] ≡ sign_row width number sign
        → IsNumber width (number_at point number) → IsMark (number_at point sign)
        → All (Any (IsTrueAt rows point)) (sign_clauses width row)
        ↔ (number_at point sign ≡ sign_of width (number_at point number)) }
    ensures reads { (width n : ℕ) → IsWidth width → n < 2 ^ width
        → signed width n ≡ pos n -ℤ (pos (2 ^ width) *ℤ sign_of width (pos n)) }
{}

/// A compact system is calm. It stays compact where narrow ranges are added, and where a small layout is laid behind it.
pub fn what_is_compact_is_calm()
    ensures calm { (system : System) → IsCompact system → IsCalm system }
    ensures declared { (system : System) (more : List (ℤ × ℤ))
        → IsCompact system → All IsNarrow more
        → IsCompact (record system { ranges = system.ranges ++ more }) }
    ensures laid { (layout : Layout) (old new : System)
        → IsCompact old → IsSmall layout → Lays layout old new → IsCompact new }
{}
