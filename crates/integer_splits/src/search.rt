ghost use Rattle.std.specs.Prelude.{◌≡◌, ◌+◌, ◌<◌, ◌≤◌, ◌^◌, [], ◌∷◌, ◌++◌, length, take, All, IfOk, OnOk, OnErr, IsTrue, IsFalse};
ghost use Rattle.mix_system.specs.Tally.{units, halving_depth};
ghost use Rattle.proof_term.specs.Refutes.{high_half};
ghost use Rattle.bounded_simplex.specs.Combination.{IsCalmBox};
ghost use Rattle.integer_splits.specs.Search.{IsSearched, IsOut, CountsNodes};
ghost use Rattle.integer_splits.specs.Stack.{CanBeTaken, IsHalved, IsTaken, IsLast};

use crate::found::{Ended, Searched};
use crate::half::{Half, high_bound, low_bound};
use crate::halving::Halving;
use crate::work::{Worked, work};
use bounded_simplex::Simplex;
use mix_system::{Farkas, Tally, Work};
use proof_term::{Node, Nodes};
use std::alloc::Global;
use wx_base::NoMemory;

/// Works one box after the other, the low half of each split first, until there is a whole point
/// or no box is left. The bounds aren't given back.
pub(crate) fn search(
    alloc: Global,
    simplex: &mut Simplex<'_>,
    tally: &mut Tally,
) -> Result<Searched, NoMemory>
    requires calm { IsCalmBox simplex.old.bounds }
    requires room { length simplex.old.bounds.changes
        + halving_depth simplex.old.bounds.system ≤ simplex.old.bounds.room }
    ensures longer { length simplex.old.bounds.changes ≤ length simplex.new.bounds.changes }
    ensures front { (record simplex.new.bounds
        { changes = take (length simplex.old.bounds.changes) simplex.new.bounds.changes })
        ≡ simplex.old.bounds }
    ensures searched { IfOk result (IsSearched simplex.old.bounds) }
    ensures spent { IfOk result (λ searched. IsOut searched.ended
        → units tally.new ≡ tally.new.budget) }
    ensures counted { IfOk result (λ searched.
        CountsNodes tally.old tally.new searched.nodes 0) }
{
    let mut nodes = Nodes::new(alloc);
    let mut halves = Vec::new(alloc);
    loop {
        match work(alloc, simplex, tally)? {
            Worked::Point(point) => {
                let left = halves.len() + 1;
                let ended = Ended::Point(point);
                return Ok(Searched { nodes, left, ended });
            }
            Worked::Spent => return Ok(out_of_budget(nodes, &halves)),
            Worked::Leaf(farkas) => {
                if take_half(simplex, &mut nodes, &mut halves, farkas)? {
                    continue;
                }
                let (left, ended) = (0, Ended::Refuted);
                return Ok(Searched { nodes, left, ended });
            }
            Worked::Halve(halving) => {
                if !tally.tick(Work::Split) {
                    return Ok(out_of_budget(nodes, &halves));
                }
                halve(simplex, &mut nodes, &mut halves, halving)?;
            }
        }
    }
}

// The end where the budget is spent.
fn out_of_budget(nodes: Nodes, halves: &Vec<Half>) -> Searched
    requires { length halves.now.items < 2 ^ 63 }
    ensures nodes { result.nodes ≡ nodes }
    ensures left { result.left ≡ length halves.now.items + 1 }
    ensures ended { result.ended ≡ Ended.Spent }
{
    Searched {
        nodes,
        left: halves.len() + 1,
        ended: Ended::Spent,
    }
}

// Puts the low half of a box in its place. The high one waits.
fn halve(
    simplex: &mut Simplex<'_>,
    nodes: &mut Nodes,
    halves: &mut Vec<Half>,
    halving: Halving,
) -> Result<(), NoMemory>
    requires known { halving.var < length simplex.old.bounds.system.ranges }
    requires spare { length simplex.old.bounds.changes < simplex.old.bounds.room }
    ensures halved { OnOk result (IsHalved halving simplex.old.bounds simplex.new.bounds
        nodes.old nodes.new halves.old.items halves.new.items) }
    ensures no_memory { OnErr result (simplex.new.bounds ≡ simplex.old.bounds) }
{
    let Halving { var, at, .. } = halving;
    let mark = simplex.mark();
    nodes.push(Node::Split { var, at })?;
    halves.push(Half { mark, var, at })?;
    simplex.assert_bound(&low_bound(var, at));
    Ok(())
}

// Puts the innermost half that waits in the place of a box that is refuted; false where none
// waits.
fn take_half(
    simplex: &mut Simplex<'_>,
    nodes: &mut Nodes,
    halves: &mut Vec<Half>,
    farkas: Farkas,
) -> Result<bool, NoMemory>
    requires waiting { All (CanBeTaken simplex.old.bounds) halves.old.items }
    ensures taken { IfOk result (λ yes. IsTrue yes
        → IsTaken farkas simplex.old.bounds simplex.new.bounds
        nodes.old nodes.new halves.old.items halves.new.items) }
    ensures last { IfOk result (λ yes. IsFalse yes
        → IsLast farkas nodes.old nodes.new halves.old.items) }
    ensures same { IfOk result (λ yes. IsFalse yes
        → simplex.new.bounds ≡ simplex.old.bounds) }
    ensures no_memory { OnErr result (simplex.new.bounds ≡ simplex.old.bounds) }
{
    nodes.push(Node::Leaf(farkas))?;
    match halves.pop() {
        Some(half) => {
            go_to(simplex, half);
            Ok(true)
        }
        None => Ok(false),
    }
}

// Goes back to the box of a half that waits.
fn go_to(simplex: &mut Simplex<'_>, half: Half)
    requires { CanBeTaken simplex.old.bounds half }
    ensures { simplex.new.bounds ≡ record simplex.old.bounds {
      changes = take half.mark.changes simplex.old.bounds.changes
          ++ high_half half.var half.at ∷ [];
    } }
{
    simplex.back_to(half.mark);
    simplex.assert_bound(&high_bound(half.var, half.at));
}
