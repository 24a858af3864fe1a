ghost use Rattle.std.specs.Prelude.{◌≡◌, ◌↔◌, ℕ, List, IsTrue, IfOk, MatchOption, Some, None, All};
ghost use Rattle.mix_system.specs.declared.literal.Lit.{Lit as Literal};
ghost use Rattle.mix_system.specs.Follows.{Propagates};
ghost use Rattle.box_check.specs.Bounds.{HasSlot, Stands, Extends};
ghost use Rattle.box_check.specs.Hints.{IsLeft};

use crate::Bounds;
use mix_system::Lit;
use wx_base::NoMemory;

/// The clauses that a hint may name, by their numbers.
pub trait Clauses {
    ghost use Rattle.mix_system.specs.Follows.{Known as Numbered};

    ghost known: { Self → Numbered };

    /// The literals of the clause with that number, `None` exactly where there is none.
    fn clause(&self, number: u32) -> Option<&[Lit]>
        ensures { MatchOption result (known self.now number ≡ None)
            (λ clause. known self.now number ≡ Some clause.now) };
}

/// What bounds leave of a clause.
#[derive(Clone, Copy, Debug)]
pub enum Open {
    /// All its literals are false.
    Nothing,
    /// All its literals but this one, counted as written, are false.
    One(Lit),
    /// Two or more of its literals aren't false.
    More,
}

impl Bounds {
    /// What the bounds leave of a clause.
    pub fn left_of(&self, clause: &[Lit]) -> Open
        ensures { IsLeft self.now clause.now result }
    {
        let mut found = None;
        for lit in clause {
            if self.is_false(*lit) {
                continue;
            }
            if found.is_some() {
                return Open::More;
            }
            found = Some(*lit);
        }
        match found {
            None => Open::Nothing,
            Some(lit) => Open::One(lit),
        }
    }
}

/// Whether the clauses of the hints propagate: each but the last leaves one literal, which is put
/// in force, and the last leaves none.
///
/// What was put in force stays so: [`Bounds::back_to`] takes it back.
pub fn propagates<C: Clauses>(
    bounds: &mut Bounds,
    clauses: &C,
    hints: &[u32],
) -> Result<bool, NoMemory>
    requires slots { (number : ℕ) (clause : List Literal) →
        C.known clauses.now number ≡ Some clause → All (λ lit. HasSlot bounds.old lit.term) clause }
    ensures exact { IfOk result (λ yes. (box : List Literal) → Stands bounds.old box →
        (IsTrue yes ↔ Propagates (C.known clauses.now) box hints.now)) }
    ensures extends { Extends bounds.old bounds.new }
{
    let Some((last, before)) = hints.split_last() else {
        return Ok(false);
    };
    for hint in before {
        let Some(clause) = clauses.clause(*hint) else {
            return Ok(false);
        };
        let Open::One(lit) = bounds.left_of(clause) else {
            return Ok(false);
        };
        bounds.put(lit)?;
    }
    let Some(clause) = clauses.clause(*last) else {
        return Ok(false);
    };
    Ok(matches!(bounds.left_of(clause), Open::Nothing))
}
