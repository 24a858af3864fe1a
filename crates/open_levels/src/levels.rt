ghost use Rattle.std.specs.Prelude.{◌≡◌, ◌+ℤ◌, ◌<◌, ◌∷◌, [], pos, length, map, IfOk, OnOk, MatchOption, All, FitsSigned, true};
ghost use Rattle.std.specs.Int.{w128};
ghost use Rattle.mix_system.specs.System.{Exists};
ghost use Rattle.mix_system.specs.Bounds.{unit_bounds};
ghost use Rattle.proof_term.specs.Steps.{NamesTerm};
ghost use Rattle.proof_term.specs.Levels.{cut_clause};
ghost use Rattle.proof_term.specs.Valid.{at_start, has_ended, after_clause, after_enter, closed};
ghost use Rattle.open_levels.specs.Adds.{AreFor, Adds, AddsEverywhere};
ghost use Rattle.open_levels.specs.Stack.{level_of, ended_on};
ghost use Rattle.open_levels.specs.Kept.{stage_of, AreLevels, GoalFits};

use crate::LevelStack;
use crate::filling::{base_of, begin, put_unit, put_unit_everywhere};
use box_check::Bounds;
use mix_system::{Lit, Side, System, Term};
use proof_term::Goal;
use std::alloc::Global;
use wx_base::NoMemory;

/// The open levels of a proof, and the bounds in force on the last of them.
#[derive(Debug, Drop)]
pub struct OpenLevels {
    pub stack: LevelStack,
    pub bounds: Bounds,
}

impl OpenLevels {
    /// The first level of a proof with that goal.
    pub fn new(
        alloc: Global,
        system: &System,
        cost: Term,
        goal: Goal,
    ) -> Result<OpenLevels, NoMemory>
        requires cost { Exists (length system.now.ranges) (length system.now.rows) cost }
        requires fits { GoalFits system.now goal }
        ensures stage { IfOk result (λ levels. stage_of levels ≡ at_start system.now goal) }
        ensures kept { IfOk result (AreLevels system.now cost) }
    {
        let mut bounds = base_of(alloc, system)?;
        begin(&mut bounds, system, cost, goal)?;
        let stack = LevelStack::new(alloc, system.clauses() as u64, goal);
        Ok(OpenLevels { stack, bounds })
    }

    /// The levels after a lemma or a theory with that clause has ended on the last one.
    pub fn with_clause(
        self,
        system: &System,
        cost: Term,
        clause: &[Lit],
    ) -> Result<OpenLevels, NoMemory>
        requires kept { AreLevels system.now cost self }
        requires named { All (NamesTerm system.now) clause.now }
        ensures stage { IfOk result (λ levels. stage_of levels ≡ after_clause
            (stage_of self) clause.now) }
        ensures kept { IfOk result (AreLevels system.now cost) }
    {
        let OpenLevels {
            mut stack,
            mut bounds,
        } = self;
        put_unit(&mut bounds, system, clause)?;
        stack.push(clause, false)?;
        Ok(OpenLevels { stack, bounds })
    }

    /// The levels after one was opened that proves that the term is at most the bound.
    pub fn entered(
        self,
        system: &System,
        cost: Term,
        term: Term,
        bound: i128,
    ) -> Result<OpenLevels, NoMemory>
        requires kept { AreLevels system.now cost self }
        requires cost { Exists (length system.now.ranges) (length system.now.rows) cost }
        requires exists { Exists (length system.now.ranges) (length system.now.rows) term }
        requires fits { FitsSigned w128 (bound +ℤ pos 1) }
        ensures stage { IfOk result (λ levels. stage_of levels ≡ after_enter
            (stage_of self) term bound) }
        ensures kept { IfOk result (AreLevels system.now cost) }
    {
        let OpenLevels {
            mut stack,
            mut bounds,
        } = self;
        let mark = bounds.mark();
        let goal = Goal::Below { term, bound };
        begin(&mut bounds, system, cost, goal)?;
        stack.open(goal, mark)?;
        Ok(OpenLevels { stack, bounds })
    }

    /// Whether the newest step of the last level is the empty clause.
    pub fn has_ended(&self) -> bool
        ensures { result ≡ has_ended (stage_of self.now) }
    {
        self.stack.has_ended()
    }

    /// The levels after the last one was closed, so that its cut has ended on the level around it.
    /// `None` exactly where there is none.
    pub fn closed(self, system: &System, cost: Term) -> Result<Option<OpenLevels>, NoMemory>
        requires kept { AreLevels system.now cost self }
        requires cost { Exists (length system.now.ranges) (length system.now.rows) cost }
        ensures first { IfOk result (λ found. MatchOption found (self.stack.enclosing ≡ [])
            (λ _. 0 < length self.stack.enclosing)) }
        ensures stage { IfOk result (λ found. MatchOption found (Unit {0})
            (λ levels. stage_of levels ≡ closed self.stack.next (level_of self.stack.last)
            (map level_of self.stack.enclosing))) }
        ensures kept { IfOk result (λ found. MatchOption found (Unit {0})
            (AreLevels system.now cost)) }
    {
        let OpenLevels {
            mut stack,
            mut bounds,
        } = self;
        if stack.around() == 0 {
            return Ok(None);
        }
        let goal = stack.goal();
        bounds.close(stack.mark());
        stack.close();
        end_cut(&mut stack, &mut bounds, system, goal)?;
        Ok(Some(OpenLevels { stack, bounds }))
    }
}

// The cut of a level with that goal ends on the last level.
fn end_cut(
    stack: &mut LevelStack,
    bounds: &mut Bounds,
    system: &System,
    goal: Goal,
) -> Result<(), NoMemory>
    requires over { AreFor system.now bounds.old }
    requires fits { GoalFits system.now goal }
    ensures ends { OnOk result (stack.new ≡ ended_on stack.old (cut_clause goal) true) }
    ensures adds { OnOk result (AddsEverywhere (unit_bounds (cut_clause goal ∷ []))
        bounds.old bounds.new) }
    ensures here { OnOk result (Adds (unit_bounds (cut_clause goal ∷ []))
        bounds.old bounds.new) }
    ensures over { OnOk result (AreFor system.now bounds.new) }
{
    match goal {
        Goal::Below { term, bound } => {
            let lit = Lit {
                term,
                side: Side::Le,
                bound,
            };
            return put_cut(stack, bounds, system, &[lit]);
        }
        _ => return put_cut(stack, bounds, system, &[]),
    }
}

// A cut with that clause ends on the last level.
fn put_cut(
    stack: &mut LevelStack,
    bounds: &mut Bounds,
    system: &System,
    clause: &[Lit],
) -> Result<(), NoMemory>
    requires over { AreFor system.now bounds.old }
    requires named { All (NamesTerm system.now) clause.now }
    ensures ends { OnOk result (stack.new ≡ ended_on stack.old clause.now true) }
    ensures adds { OnOk result (AddsEverywhere (unit_bounds (clause.now ∷ []))
        bounds.old bounds.new) }
    ensures here { OnOk result (Adds (unit_bounds (clause.now ∷ [])) bounds.old bounds.new) }
    ensures over { OnOk result (AreFor system.now bounds.new) }
{
    put_unit_everywhere(bounds, system, clause)?;
    stack.push(clause, true)
}
