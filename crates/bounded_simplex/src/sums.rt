ghost use Rattle.std.specs.Prelude.{ℕ, ◌<◌, List, ℤ, length, slice_index_or, IfOk, IfSome, IfNone};
ghost use Rattle.mix_system.specs.declared.literal.Side.{Side as SpecSide};
ghost use Rattle.mix_system.specs.System.{IsWellFormed};
ghost use Rattle.tableau_rows.specs.declared.equation.Equation.{Equation as AnEquation};
ghost use Rattle.bounded_simplex.specs.Broken.{side_of};
ghost use Rattle.bounded_simplex.specs.Combination.{IsCalmBox, IsRefutation};
ghost use Rattle.bounded_simplex.specs.Sums.{IsFixedAt, KeepsSum};
ghost use Rattle.bounded_simplex.specs.TableauOf.{TableauOf, IsOfRow};

use crate::{Bounds, Tableau, refute};
use mix_system::Farkas;
use std::alloc::Global;
use wx_base::NoMemory;

/// The first refutation of a row's bound by one bound of each of its variables, `None` where there
/// is none, or only one whose numbers leave 128 bits. So in a calm system in which each variable is
/// fixed, the bounds are refuted, or all rows keep them.
pub fn refute_sums(alloc: Global, bounds: &Bounds<'_>) -> Result<Option<Farkas>, NoMemory>
    ensures refutation { IfOk result (λ found. IfSome found
        (λ f. IsRefutation bounds.now f.parts)) }
    ensures none { IfOk result (λ found. IfNone found (IsCalmBox bounds.now
        → (point : List ℤ) → IsFixedAt bounds.now point → (row : ℕ) (side : SpecSide)
        → row < length bounds.now.system.rows → KeepsSum bounds.now point row side)) }
{
    let first = Tableau::new(alloc, bounds.system())?;
    for row in 0..bounds.system().rows() {
        if let Some(farkas) = refute_sum(alloc, bounds, &first, row, true)? {
            return Ok(Some(farkas));
        }
        if let Some(farkas) = refute_sum(alloc, bounds, &first, row, false)? {
            return Ok(Some(farkas));
        }
    }
    Ok(None)
}

// That of a row's lower bound by the greatest sum, or of its upper one by the least.
fn refute_sum(
    alloc: Global,
    bounds: &Bounds<'_>,
    first: &Tableau,
    row: u32,
    upwards: bool,
) -> Result<Option<Farkas>, NoMemory>
    requires well_formed { IsWellFormed bounds.now.system }
    requires tableau_of { TableauOf bounds.now.system first.now.rows.items }
    requires of_row { (d : AnEquation)
        → IsOfRow bounds.now.system row (slice_index_or first.now.rows.items row d) }
    requires within { row < length bounds.now.system.rows }
    ensures refutation { IfOk result (λ found. IfSome found
        (λ f. IsRefutation bounds.now f.parts)) }
    ensures none { IfOk result (λ found. IfNone found (IsCalmBox bounds.now
        → (point : List ℤ) → IsFixedAt bounds.now point
        → KeepsSum bounds.now point row (side_of upwards))) }
{
    match refute(alloc, bounds, &first.rows[row as usize], upwards)? {
        Ok(found) => Ok(found),
        Err(_) => Ok(None),
    }
}
