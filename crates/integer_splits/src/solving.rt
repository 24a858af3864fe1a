ghost use Rattle.std.specs.Prelude.{◌≡◌, ◌+◌, ◌≤◌, [], ◌∷◌, length, IfOk, OnErr};
ghost use Rattle.mix_system.specs.Tally.{units, halving_depth};
ghost use Rattle.bounded_simplex.specs.Combination.{IsCalmBox};
ghost use Rattle.integer_splits.specs.Answer.{Decides, IsSpent, IsKept, CountsHalving, CountsTree};
ghost use Rattle.integer_splits.specs.Search.{IsSearched, IsOut, CountsNodes};

use crate::Split;
use crate::found::{Ended, Searched};
use crate::kept::opened;
use crate::search::search;
use bounded_simplex::Simplex;
use mix_system::Tally;
use proof_term::{OpenTree, Tree};
use std::alloc::Global;
use wx_base::NoMemory;

/// Looks for a whole point inside all bounds in force, by halving ranges of variables. The system
/// is calm, each bound in force is below 2^100 in size, and there is room for as many changes of
/// bounds as the ranges can be halved.
///
/// It counts one check for each box at most, and one split for each that it halves. `Spent` comes
/// only where the budget is spent as a check or a split is needed. The bounds and their changes
/// are afterwards as before.
///
/// Branch and bound (A. H. Land, A. G. Doig, An automatic method of solving discrete programming
/// problems, 1960), where each split halves a range.
pub fn solve(alloc: Global, simplex: &mut Simplex<'_>, tally: &mut Tally) -> Result<Split, NoMemory>
    requires calm { IsCalmBox simplex.old.bounds }
    requires room { length simplex.old.bounds.changes
        + halving_depth simplex.old.bounds.system ≤ simplex.old.bounds.room }
    ensures bounds { simplex.new.bounds ≡ simplex.old.bounds }
    ensures answer { IfOk result (Decides simplex.old.bounds) }
    ensures spent { IfOk result (λ split. IsSpent split
        → units tally.new ≡ tally.new.budget) }
    ensures counted { IfOk result (λ _. CountsHalving tally.old tally.new) }
    ensures tree { IfOk result (CountsTree tally.old tally.new) }
{
    let Searched { nodes, ended, .. } = search_box(alloc, simplex, tally)?;
    match ended {
        Ended::Point(point) => Ok(Split::Point(point)),
        Ended::Refuted => Ok(Split::Refuted(Tree { nodes })),
        Ended::Spent => Ok(Split::Spent),
    }
}

/// As [`solve`], and `kept` then holds the tree so far: whole where it refutes, else with a pending
/// node at the box in work and at each half that waits beside it or above it. Before the call, and
/// after `NoMemory`, `kept` is one pending node.
pub fn solve_kept(
    alloc: Global,
    simplex: &mut Simplex<'_>,
    tally: &mut Tally,
    kept: &mut OpenTree,
) -> Result<Split, NoMemory>
    requires calm { IsCalmBox simplex.old.bounds }
    requires room { length simplex.old.bounds.changes
        + halving_depth simplex.old.bounds.system ≤ simplex.old.bounds.room }
    ensures bounds { simplex.new.bounds ≡ simplex.old.bounds }
    ensures answer { IfOk result (Decides simplex.old.bounds) }
    ensures spent { IfOk result (λ split. IsSpent split
        → units tally.new ≡ tally.new.budget) }
    ensures counted { IfOk result (λ _. CountsHalving tally.old tally.new) }
    ensures tree { IfOk result (CountsTree tally.old tally.new) }
    ensures kept { IfOk result
        (λ split. IsKept simplex.old.bounds tally.old tally.new split kept.new.nodes) }
    ensures no_memory { OnErr result (kept.new ≡ kept.old) }
{
    let Searched { nodes, left, ended } = search_box(alloc, simplex, tally)?;
    let tree_so_far = opened(alloc, &nodes, left)?;
    kept.nodes = tree_so_far;
    match ended {
        Ended::Point(point) => Ok(Split::Point(point)),
        Ended::Refuted => Ok(Split::Refuted(Tree { nodes })),
        Ended::Spent => Ok(Split::Spent),
    }
}

// The search, after which the bounds are given back.
fn search_box(
    alloc: Global,
    simplex: &mut Simplex<'_>,
    tally: &mut Tally,
) -> Result<Searched, NoMemory>
    requires calm { IsCalmBox simplex.old.bounds }
    requires room { length simplex.old.bounds.changes
        + halving_depth simplex.old.bounds.system ≤ simplex.old.bounds.room }
    ensures bounds { simplex.new.bounds ≡ simplex.old.bounds }
    ensures searched { IfOk result (IsSearched simplex.old.bounds) }
    ensures spent { IfOk result (λ searched. IsOut searched.ended
        → units tally.new ≡ tally.new.budget) }
    ensures counted { IfOk result (λ searched.
        CountsNodes tally.old tally.new searched.nodes 0) }
{
    let mark = simplex.mark();
    let searched = search(alloc, simplex, tally);
    simplex.back_to(mark);
    searched
}
