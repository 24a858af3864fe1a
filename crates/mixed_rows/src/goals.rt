//! What may be a goal or a cut.

ghost use Rattle.std.specs.Prelude.{◌≡◌, [], All, IsTrue, IfSome};
ghost use Rattle.mix_system.specs.declared.literal.Side.TheVariants.{Ge};
ghost use Rattle.mix_system.specs.Bounds.{Entails};
ghost use Rattle.proof_term.specs.Weaker.{IsFree};
ghost use Rattle.level_steps.specs.Plain.{IsOnVariable};
ghost use Rattle.level_steps.specs.Raised.{MayRaise};
ghost use Rattle.level_search.specs.Kept.{level_of, IsGoal};

use crate::calm::is_small;
use crate::systems::exists;
use mix_system::{Lit, Side, System, Term};
use mixed_solver::Mixed;

/// Whether a goal may be set, if there is one.
pub fn is_goal(system: &System, goal: Option<Lit>) -> bool
    ensures { IsTrue result → IfSome goal (IsGoal system.now) }
{
    match goal {
        Some(goal) => is_goal_lit(system, goal),
        None => true,
    }
}

fn is_goal_lit(system: &System, goal: Lit) -> bool
    ensures { IsTrue result → IsGoal system.now goal }
{
    if !exists(system.vars(), system.rows(), goal.term) {
        return false;
    }
    is_small(goal.bound)
}

/// Whether a goal may be set in place of the one before.
pub fn may_raise(mixed: &Mixed<'_>, goal: Lit) -> bool
    ensures goal { IsTrue result → IsGoal mixed.now.level.system.now goal }
    ensures side { IsTrue result → goal.side ≡ Ge }
    ensures may { IsTrue result → MayRaise (level_of mixed.now.level) goal }
{
    let Side::Ge = goal.side else {
        return false;
    };
    if !is_on_row(goal.term) {
        return false;
    }
    if !is_goal_lit(mixed.level.system, goal) {
        return false;
    }
    if !are_clauses_free(mixed.level.system, goal.term) {
        return false;
    }
    if !is_free(goal.term, &mixed.level.cuts) {
        return false;
    }
    is_stronger(goal, mixed.level.goal)
}

fn is_on_row(term: Term) -> bool
    ensures { IsTrue result → ¬ IsOnVariable term }
{
    match term {
        Term::Var(_) => false,
        Term::Row(_) => true,
    }
}

fn are_clauses_free(system: &System, term: Term) -> bool
    ensures { IsTrue result → All (IsFree term) system.now.clauses }
{
    for clause in 0..system.clauses() {
        if !is_free(term, system.clause(clause)) {
            return false;
        }
    }
    true
}

fn is_free(term: Term, lits: &[Lit]) -> bool
    ensures { IsTrue result → IsFree term lits.now }
{
    lits.iter().all(|lit| lit.term != term)
}

fn is_stronger(goal: Lit, before: Option<Lit>) -> bool
    requires { goal.side ≡ Ge }
    ensures { IsTrue result → IfSome before (λ it. Entails goal it) }
{
    match before {
        Some(before) => says_more(goal, before),
        None => true,
    }
}

fn says_more(goal: Lit, before: Lit) -> bool
    requires { goal.side ≡ Ge }
    ensures { IsTrue result → Entails goal before }
{
    let Side::Ge = before.side else {
        return false;
    };
    if goal.term != before.term {
        return false;
    }
    before.bound <= goal.bound
}

/// Whether a literal may be added as a cut.
pub fn may_cut(mixed: &Mixed<'_>, cut: Lit) -> bool
    ensures cut { IsTrue result → IsGoal mixed.now.level.system.now cut }
    ensures none { IsTrue result → mixed.now.level.steps.items ≡ [] }
{
    let Side::Le = cut.side else {
        return false;
    };
    if !is_goal_lit(mixed.level.system, cut) {
        return false;
    }
    mixed.steps().is_empty()
}
