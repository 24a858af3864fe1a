//! Laws of the definitions that contracts cite. Each is the contract of a function that does
//! nothing.

ghost use Rattle.std.specs.Prelude.{◌≡◌, ℕ, ◌<◌, pos, List, length, slice_index_or};
ghost use Rattle.mix_system.specs.System.{System, IsWellFormed};
ghost use Rattle.tableau_rows.specs.declared.equation.Equation.{Equation};
ghost use Rattle.tableau_rows.specs.Equation.{total};
ghost use Rattle.bounded_simplex.specs.TableauOf.{TableauOf};
ghost use Rattle.bounded_simplex.specs.Terms.{times_in_column};

/// In each equation of a tableau the coefficients on every variable cancel out, where each row is
/// replaced by its parts: the denominator times the basic term is the sum of the other entries.
pub fn equations_cancel_out()
    ensures { (system : System) (rows : List Equation) → IsWellFormed system → TableauOf system rows
        → (k : ℕ) (d : Equation) → k < length rows → (var : ℕ)
        → total (times_in_column system var) (slice_index_or rows k d).entries.items ≡ pos 0 }
{}
