ghost use Rattle.std.specs.Prelude.{◌≡◌, ◌∷◌, ◌↔◌, ◌<◌, ◌+ℤ◌, ◌≤ℤ◌, pos, List, map, length, IfOk, OnOk, IsTrue, All, FitsSigned};
ghost use Rattle.std.specs.Int.{w128};
ghost use Rattle.mix_system.specs.declared.literal.Lit.{Lit as Literal};
ghost use Rattle.proof_term.specs.Steps.{NamesTerm};
ghost use Rattle.proof_term.specs.Refutes.{low_half, high_half};
ghost use Rattle.proof_term.specs.Valid.{after_clause};
ghost use Rattle.leaf_check.specs.Sums.{IsClear};
ghost use Rattle.open_levels.specs.Kept.{stage_of};
ghost use Rattle.proof_checker.specs.Place.{AtStep, InTree, after_leaf};
ghost use Rattle.proof_checker.specs.Outcome.{GoesTo, SplitGives, LeafGives, multiple_of};
ghost use Rattle.proof_checker.specs.Kept.{IsTheory, IsRefuted, Comes, LineOf, TakesOnce};

use crate::Reason;
use crate::base::Base;
use crate::kept::{Found, Kept, Theory};
use leaf_check::{Combined, Sums};
use mix_system::{FarkasPart, FarkasParts, System};
use open_levels::has_term;
use proof_text::{Line, Multiple};
use std::alloc::Global;
use tree_check::{Refuted, are_in};
use wx_base::NoMemory;
use wx_num::Num;

// A node of the tree of a theory.
pub(crate) fn at_node(
    base: &Base,
    sums: &mut Sums,
    theory: Theory,
    line: Line,
) -> Result<Found, NoMemory>
    requires theory { (boxes : List (List Literal)) × IsTheory base.now theory boxes }
    requires once { TakesOnce line }
    requires clear { IsClear (length base.now.system.now.ranges) sums.old }
    ensures gives { IfOk result (λ found. (boxes : List (List Literal)) →
        IsTheory base.now theory boxes →
        Comes base.now (LineOf base.now (InTree
        (stage_of theory.levels) theory.clause boxes) line) found) }
    ensures clear { OnOk result (IsClear (length base.now.system.now.ranges) sums.new) }
{
    match line {
        Line::Split { var, at } => return split(base, theory, var, at),
        Line::Leaf { parts } => return leaf(base, sums, theory, parts.items()),
        _ => return Ok(Found::Failed(Reason::BadText)),
    }
}

fn split(base: &Base, theory: Theory, var: u32, at: i128) -> Result<Found, NoMemory>
    requires { (boxes : List (List Literal)) × IsTheory base.now theory boxes }
    ensures { IfOk result (λ found. (box : List Literal) (boxes : List (List Literal)) →
        IsTheory base.now theory (box ∷ boxes) →
        Comes base.now (SplitGives base.now.system.now
        (stage_of theory.levels) theory.clause box boxes var at) found) }
{
    if var >= base.system.vars() {
        return Ok(Found::Failed(Reason::OutOfRange));
    }
    match Num::add(at, 1) {
        Err(excess) => return Ok(Found::Failed(Reason::TooLarge(excess))),
        Ok(_) => return halve(base, theory, var, at),
    }
}

// Halves the box of a node.
fn halve(base: &Base, mut theory: Theory, var: u32, at: i128) -> Result<Found, NoMemory>
    requires theory { (boxes : List (List Literal)) × IsTheory base.now theory boxes }
    requires exists { var < length base.now.system.now.ranges }
    requires fits { FitsSigned w128 (at +ℤ pos 1) }
    ensures { IfOk result (λ found. (box : List Literal) (boxes : List (List Literal)) →
        IsTheory base.now theory (box ∷ boxes) →
        Comes base.now (GoesTo (InTree (stage_of theory.levels) theory.clause
        ((low_half var at ∷ box) ∷ (high_half var at ∷ box) ∷ boxes))) found) }
{
    theory.boxes.split(&mut theory.levels.bounds, var, at)?;
    Ok(Found::At(Kept::Tree(theory)))
}

fn leaf(
    base: &Base,
    sums: &mut Sums,
    theory: Theory,
    multiples: &[Multiple],
) -> Result<Found, NoMemory>
    requires theory { (boxes : List (List Literal)) × IsTheory base.now theory boxes }
    requires once { All (λ part. pos 1 ≤ℤ part.by) multiples.now }
    requires clear { IsClear (length base.now.system.now.ranges) sums.old }
    ensures gives { IfOk result (λ found. (box : List Literal) (boxes : List (List Literal)) →
        IsTheory base.now theory (box ∷ boxes) →
        Comes base.now (LeafGives base.now.system.now
        (stage_of theory.levels) theory.clause box boxes multiples.now) found) }
    ensures clear { OnOk result (IsClear (length base.now.system.now.ranges) sums.new) }
{
    let list = parts_of(base.alloc, multiples)?;
    let parts = list.items();
    if !name_terms(base.system, parts) {
        return Ok(Found::Failed(Reason::OutOfRange));
    }
    if !are_in(&theory.levels.bounds, parts) {
        return Ok(Found::Failed(Reason::NotInBox));
    }
    match sums.combine(base.system, parts) {
        Combined::TooLarge(excess) => return Ok(Found::Failed(Reason::TooLarge(excess))),
        Combined::NotZero => return Ok(Found::Failed(Reason::NotZero)),
        Combined::NotContradictory => return Ok(Found::Failed(Reason::NotContradictory)),
        Combined::Refutes => return refuted(base, theory),
    }
}

// The parts of a leaf, each with a multiplier of 1 at least.
fn parts_of(alloc: Global, multiples: &[Multiple]) -> Result<FarkasParts, NoMemory>
    requires { All (λ part. pos 1 ≤ℤ part.by) multiples.now }
    ensures { IfOk result (λ parts. map multiple_of parts ≡ multiples.now) }
{
    let mut parts = FarkasParts::new(alloc);
    for part in multiples {
        parts.push(FarkasPart {
            lit: part.lit,
            by: part.by,
        })?;
    }
    Ok(parts)
}

// Whether the system has the terms of all parts.
fn name_terms(system: &System, parts: &[FarkasPart]) -> bool
    ensures { IsTrue result ↔ All (λ part. NamesTerm system.now part.lit) parts.now }
{
    for part in parts {
        if !has_term(system, part.lit.term) {
            return false;
        }
    }
    true
}

// Goes on from the box of a leaf, which is refuted.
fn refuted(base: &Base, mut theory: Theory) -> Result<Found, NoMemory>
    requires { (boxes : List (List Literal)) × IsTheory base.now theory boxes }
    ensures { IfOk result (λ found. (box : List Literal) (boxes : List (List Literal)) →
        IsTheory base.now theory (box ∷ boxes) →
        Comes base.now (GoesTo (after_leaf (stage_of theory.levels) theory.clause boxes)) found) }
{
    let left = theory.boxes.next(&mut theory.levels.bounds)?;
    match left {
        Refuted::Next => return Ok(Found::At(Kept::Tree(theory))),
        Refuted::All => return ended(base, theory),
    }
}

// The step of a theory has ended: no box of its tree is left.
fn ended(base: &Base, theory: Theory) -> Result<Found, NoMemory>
    requires { IsRefuted base.now theory }
    ensures { IfOk result (Comes base.now (GoesTo
        (AtStep (after_clause (stage_of theory.levels) theory.clause)))) }
{
    let Theory {
        mut levels,
        clause,
        mark,
        ..
    } = theory;
    levels.bounds.back_to(mark);
    let later = levels.with_clause(base.system, base.cost, clause.items())?;
    Ok(Found::At(Kept::Step(later)))
}
