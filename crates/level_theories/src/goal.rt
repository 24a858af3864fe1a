ghost use Rattle.std.specs.Prelude.{◌≡◌, ◌↔◌, ◌<◌, IsTrue, [], ◌∷◌, length, slice_get, Some, IfOk, IfSome, IfNone};
ghost use Rattle.mix_system.specs.Lit.{negation};
ghost use Rattle.mix_system.specs.System.{IsInner};
ghost use Rattle.mix_system.specs.Bounds.{Entails, IsIn, IsFalseIn, range_bounds};
ghost use Rattle.level_steps.specs.Level.{available, known, box_of};
ghost use Rattle.level_steps.specs.Steps.{IsStepOn, AreOpen};
ghost use Rattle.level_steps.specs.Level.{clause_of};
ghost use Rattle.level_steps.specs.Plain.{IsPlain};
ghost use Rattle.level_search.specs.Kept.{level_of, IsKept};
ghost use Rattle.level_theories.specs.Goal.{Settles, IsAgainst, IsBoth};

use level_search::{Learning, LevelSearch};
use mix_system::{Farkas, FarkasPart, FarkasParts, Hints, Lit, Lits, Side};
use proof_term::{Node, Nodes, Step, Tree};
use std::alloc::Global;
use wx_base::NoMemory;

/// Logs the empty clause where the bounds of the level contradict its goal.
pub fn refute_goal(level: &mut LevelSearch<'_>) -> Result<Learning, NoMemory>
    requires kept { IsKept level.old }
    requires open { AreOpen level.old.steps.items }
    ensures { IfOk result (λ learning. Settles learning level.old level.new) }
{
    let Some(goal) = level.goal else {
        return Ok(Learning::Going);
    };
    if !level.says(goal.negation()) {
        return Ok(Learning::Going);
    }
    let step = against(level, goal)?;
    level.end(step)?;
    Ok(Learning::Ended)
}

// The empty clause against a goal that is false in the box: by a clause of one literal, or else
// by the two bounds.
fn against(level: &LevelSearch<'_>, goal: Lit) -> Result<Step, NoMemory>
    requires kept { IsKept level.now }
    requires goal { level.now.goal ≡ Some goal }
    requires broken { IsFalseIn (box_of (level_of level.now) level.now.steps.items) goal }
    ensures on { IfOk result (IsStepOn (level_of level.now) level.now.steps.items) }
    ensures empty { IfOk result (λ step. clause_of step ≡ []) }
{
    let alloc = level.alloc();
    let clause = Lits::new(alloc);
    match single_against(level, goal) {
        Some(number) => {
            let mut hints = Hints::new(alloc);
            hints.push(number)?;
            Ok(Step::Lemma { clause, hints })
        }
        None => {
            let tree = both(alloc, goal)?;
            Ok(Step::Theory { clause, tree })
        }
    }
}

// The local number of a clause of one literal that a goal makes false, which has a number.
fn single_against(level: &LevelSearch<'_>, goal: Lit) -> Option<u32>
    requires kept { IsKept level.now }
    requires goal { level.now.goal ≡ Some goal }
    requires broken { IsFalseIn (box_of (level_of level.now) level.now.steps.items) goal }
    ensures some { IfSome result (IsAgainst level.now goal) }
    ensures none { IfNone result (IsIn (range_bounds level.now.system.now.ranges) (negation goal)) }
{
    for at in 0..level.search.clauses() {
        let [only] = level.search.clause(at) else {
            continue;
        };
        if !excludes(goal, *only) {
            continue;
        }
        let Some(number) = level.numbers[at as usize] else {
            continue;
        };
        return Some(number);
    }
    None
}

// Whether a bound makes a literal false.
pub(crate) fn excludes(bound: Lit, lit: Lit) -> bool
    ensures { IsTrue result ↔ Entails bound (negation lit) }
{
    if bound.term != lit.term {
        return false;
    }
    match (bound.side, lit.side) {
        (Side::Le, Side::Ge) => bound.bound < lit.bound,
        (Side::Ge, Side::Le) => lit.bound < bound.bound,
        _ => false,
    }
}

// The leaf of a literal and its negation.
fn both(alloc: Global, lit: Lit) -> Result<Tree, NoMemory>
    requires { IsInner lit.bound }
    ensures { IfOk result (λ tree. IsBoth lit tree.nodes) }
{
    let mut parts = FarkasParts::new(alloc);
    parts.push(FarkasPart { lit, by: 1 })?;
    parts.push(FarkasPart {
        lit: lit.negation(),
        by: 1,
    })?;
    let mut nodes = Nodes::new(alloc);
    nodes.push(Node::Leaf(Farkas { parts }))?;
    Ok(Tree { nodes })
}
