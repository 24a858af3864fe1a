ghost use Rattle.std.specs.Prelude.{◌≡◌, List, length, map, IfOk, OnOk, IfErr, MatchOption, All};
ghost use Rattle.wx_num.specs.Excess.{Overflows};
ghost use Rattle.mix_system.specs.declared.literal.Lit.{Lit as Literal};
ghost use Rattle.mix_system.specs.Lit.{negation};
ghost use Rattle.mix_system.specs.System.{IsWellFormed};
ghost use Rattle.proof_term.specs.Levels.{known};
ghost use Rattle.proof_term.specs.Steps.{NamesTerm, StaysWithin, negation_step};
ghost use Rattle.box_check.specs.Bounds.{IsOver, Stands};
ghost use Rattle.leaf_check.specs.Steps.{IsFirstExcess};
ghost use Rattle.open_levels.specs.Adds.{Adds};
ghost use Rattle.open_levels.specs.Kept.{IsLevel};
ghost use Rattle.open_levels.specs.Stack.{levels_of};
ghost use Rattle.open_levels.specs.Shown.{IsShown, Keeps, shown_by};

use crate::Available;
use crate::filling::put_one;
use box_check::{Bounds, propagates};
use mix_system::{Lit, Side, System};
use wx_base::NoMemory;
use wx_num::{Excess, Num};

/// Whether a lemma is shown by its hints.
#[derive(Clone, Copy, Debug, PartialEq, Eq)]
pub enum Shown {
    /// Its clause follows along them.
    Follows,
    /// It doesn't.
    Open,
    /// The first negation of its literals that would overflow.
    TooLarge(Excess),
}

// The literal that says the opposite, or the step that would overflow.
fn negated(lit: Lit) -> Result<Lit, Excess>
    ensures value { IfOk result (λ opposite. opposite ≡ negation lit) }
    ensures stays { IfOk result (λ _. StaysWithin (negation_step lit)) }
    ensures excess { IfErr result (λ excess. excess ≡ negation_step lit) }
    ensures overflows { IfErr result Overflows }
{
    let (side, bound) = match lit.side {
        Side::Le => (Side::Ge, Num::add(lit.bound, 1)),
        Side::Ge => (Side::Le, Num::sub(lit.bound, 1)),
    };
    match bound {
        Ok(bound) => Ok(Lit {
            term: lit.term,
            side,
            bound,
        }),
        Err(excess) => Err(excess),
    }
}

/// Takes all literals of a clause as false, or gives the first negation that would overflow.
pub fn assume(
    bounds: &mut Bounds,
    system: &System,
    clause: &[Lit],
) -> Result<Option<Excess>, NoMemory>
    requires over { IsOver (length system.now.ranges) (length system.now.rows) bounds.old }
    requires named { All (NamesTerm system.now) clause.now }
    ensures adds { IfOk result (λ excess. MatchOption excess
        (Adds (map negation clause.now) bounds.old bounds.new) (λ _. Unit {0})) }
    ensures steps { IfOk result (λ excess. MatchOption excess
        (All StaysWithin (map negation_step clause.now))
        (IsFirstExcess (map negation_step clause.now))) }
    ensures over { OnOk result (IsOver (length system.now.ranges)
        (length system.now.rows) bounds.new) }
{
    for lit in clause {
        match negated(*lit) {
            Ok(opposite) => put_one(bounds, system, opposite)?,
            Err(excess) => return Ok(Some(excess)),
        }
    }
    Ok(None)
}

/// Whether a clause follows along hints on the last of some levels, for whose box the bounds stand.
///
/// But for the answer [`Shown::TooLarge`] the bounds are as before.
pub fn follow_hints(
    bounds: &mut Bounds,
    available: &Available,
    clause: &[Lit],
    hints: &[u32],
) -> Result<Shown, NoMemory>
    requires formed { IsWellFormed available.now.system.now }
    requires over { IsOver (length available.now.system.now.ranges)
        (length available.now.system.now.rows) bounds.old }
    requires last { IsLevel available.now.system.now available.now.stack.now.last }
    requires enclosing { All (IsLevel available.now.system.now)
        available.now.stack.now.enclosing }
    requires named { All (NamesTerm available.now.system.now) clause.now }
    ensures exact { IfOk result (λ shown. (box : List Literal) → Stands bounds.old box →
        IsShown clause.now hints.now box (known available.now.system.now
        (levels_of available.now.stack.now.last available.now.stack.now.enclosing)) shown) }
    ensures keeps { IfOk result (λ shown. Keeps shown bounds.old bounds.new) }
{
    let mark = bounds.mark();
    if let Some(excess) = assume(bounds, available.system, clause)? {
        return Ok(Shown::TooLarge(excess));
    }
    let follows = propagates(bounds, available, hints)?;
    bounds.back_to(mark);
    Ok(shown_by(follows))
}

fn shown_by(follows: bool) -> Shown
    ensures { result ≡ shown_by follows }
{
    if follows { Shown::Follows } else { Shown::Open }
}
