ghost use Rattle.std.specs.Prelude.{◌≡◌, ◌<◌, [], ◌∷◌, pos, ◌+ℤ◌, List, length, FitsSigned, IsTrue, IfOk, OnOk, MatchOption, Some, None, All, ◌↔◌};
ghost use Rattle.std.specs.Int.{w128};
ghost use Rattle.mix_system.specs.declared.literal.Lit.{Lit as Literal};
ghost use Rattle.mix_system.specs.Bounds.{IsIn};
ghost use Rattle.proof_term.specs.Refutes.{low_half, high_half};
ghost use Rattle.box_check.specs.Bounds.{HasSlot, Stands, Extends};
ghost use Rattle.box_check.specs.declared.bounds.Bounds.{Bounds as Kept};
ghost use Rattle.tree_check.specs.Boxes.{Stand, IsNext};

use box_check::Bounds;
use mix_system::{FarkasPart, Lit, Side, Term};
use std::alloc::Global;
use wx_base::NoMemory;

/// The high half of a split whose low half is in work: the bound that it adds, and the mark of the
/// box that was split.
#[derive(Clone, Copy, Debug)]
pub struct Half {
    pub mark: usize,
    pub high: Lit,
}

/// The boxes of a tree that are left behind the one in force, as the high halves of its splits. The
/// latest stands last.
#[derive(Debug, Drop)]
pub struct OpenBoxes {
    pub halves: Vec<Half>,
}

/// What is left after a box was refuted.
#[derive(Clone, Copy, Debug, PartialEq, Eq)]
pub enum Refuted {
    /// Another box is in force.
    Next,
    /// None is left.
    All,
}

impl OpenBoxes {
    /// One box alone, the one that is in force. It takes no memory.
    pub fn new(alloc: Global) -> OpenBoxes
        ensures { (base bounds : Kept) (box : List Literal) → Extends base bounds →
            Stands bounds box → Stand base bounds result (box ∷ []) }
    {
        OpenBoxes {
            halves: Vec::new(alloc),
        }
    }

    /// Halves the box in force: its low half is in force then.
    pub fn split(&mut self, bounds: &mut Bounds, var: u32, at: i128) -> Result<(), NoMemory>
        requires fits { FitsSigned w128 (at +ℤ pos 1) }
        requires slot { HasSlot bounds.old (Term.Var var) }
        ensures { OnOk result ((base : Kept) (box : List Literal) (boxes : List (List Literal)) →
            Stand base bounds.old self.old (box ∷ boxes)
            → Stand base bounds.new self.new ((low_half var at ∷ box) ∷
            (high_half var at ∷ box) ∷ boxes)) }
    {
        let half = Half {
            mark: bounds.mark(),
            high: high_of(var, at),
        };
        self.halves.push(half)?;
        bounds.put(low_of(var, at))
    }

    /// Goes on from the box in force to the next that is left.
    pub fn next(&mut self, bounds: &mut Bounds) -> Result<Refuted, NoMemory>
        requires { (base : Kept) × (boxes : List (List Literal)) ×
            Stand base bounds.old self.old boxes }
        ensures { IfOk result (λ left. (base : Kept) (box : List Literal)
            (boxes : List (List Literal)) →
            Stand base bounds.old self.old (box ∷ boxes) →
            IsNext left base bounds.new self.new boxes) }
    {
        let Some(half) = self.halves.pop() else {
            return Ok(Refuted::All);
        };
        bounds.back_to(half.mark);
        bounds.put(half.high)?;
        Ok(Refuted::Next)
    }
}

fn low_of(var: u32, at: i128) -> Lit
    ensures { result ≡ low_half var at }
{
    Lit {
        term: Term::Var(var),
        side: Side::Le,
        bound: at,
    }
}

fn high_of(var: u32, at: i128) -> Lit
    requires { FitsSigned w128 (at +ℤ pos 1) }
    ensures { result ≡ high_half var at }
{
    Lit {
        term: Term::Var(var),
        side: Side::Ge,
        bound: at + 1,
    }
}

/// Whether all literals of a leaf are in the box in force.
pub fn are_in(bounds: &Bounds, parts: &[FarkasPart]) -> bool
    requires { All (λ part. HasSlot bounds.now part.lit.term) parts.now }
    ensures { (box : List Literal) → Stands bounds.now box → IsTrue result ↔
        All (λ part. IsIn box part.lit) parts.now }
{
    for part in parts {
        if !bounds.says(part.lit) {
            return false;
        }
    }
    true
}
