//! Laws of the definitions that contracts cite. Each is the contract of a function that does nothing.

ghost use Rattle.std.specs.Prelude.{◌≡◌, ◌⊎◌, ◌↔◌, ℕ, ℤ, List, Any, Some};
ghost use Rattle.mix_system.specs.declared.literal.Lit.{Lit};
ghost use Rattle.mix_system.specs.declared.row.Part.{Part};
ghost use Rattle.mix_system.specs.declared.farkas.FarkasPart.{FarkasPart};
ghost use Rattle.mix_system.specs.Lit.{negation, atom};
ghost use Rattle.mix_system.specs.Fits.{IsInRanges, IsTrueAt};
ghost use Rattle.mix_system.specs.Bounds.{IsIn, AreTrueAt, range_bounds};
ghost use Rattle.mix_system.specs.FarkasSum.{FarkasRefutes};
ghost use Rattle.mix_system.specs.Follows.{Known, Follows};

/// At each point one of a literal and its negation is true, and never both. They have one atom.
pub fn one_of_a_literal_and_its_negation()
    ensures one { (rows : List (List Part)) (point : List ℤ) (lit : Lit)
        → IsTrueAt rows point lit ⊎ IsTrueAt rows point (negation lit) }
    ensures not_both { (rows : List (List Part)) (point : List ℤ) (lit : Lit)
        → IsTrueAt rows point lit → IsTrueAt rows point (negation lit) → ⊥ }
    ensures atom { (lit : Lit) → atom (negation lit) ≡ atom lit }
    ensures back { (lit : Lit) → negation (negation lit) ≡ lit }
{}

/// Where all bounds of a box are true at a point, each literal in the box is. The bounds of some ranges are true exactly at the points in them.
pub fn what_a_box_says_is_true()
    ensures in_box { (rows : List (List Part)) (point : List ℤ) (box : List Lit) (lit : Lit)
        → AreTrueAt rows point box → IsIn box lit → IsTrueAt rows point lit }
    ensures ranges { (rows : List (List Part)) (point : List ℤ) (ranges : List (ℤ × ℤ))
        → AreTrueAt rows point (range_bounds ranges) ↔ IsInRanges ranges point }
{}

/// No point makes all bounds of a refuted box true.
pub fn a_refuted_box_has_no_point()
    ensures { (rows : List (List Part)) (point : List ℤ) (box : List Lit) (parts : List FarkasPart)
        → FarkasRefutes rows box parts → AreTrueAt rows point box → ⊥ }
{}

/// Where the bounds of the box and the known clauses are true, a clause that follows from them is.
pub fn what_follows_is_true()
    ensures { (rows : List (List Part)) (point : List ℤ) (clause : List Lit) (hints : List ℕ)
        (box : List Lit) (known : Known) → Follows clause hints box known → AreTrueAt rows point box
        → ((at : ℕ) (given : List Lit) → known at ≡ Some given → Any (IsTrueAt rows point) given)
        → Any (IsTrueAt rows point) clause }
{}
