ghost use Rattle.std.specs.Prelude.{◌≡◌, ◌⊎◌, [], ◌∷◌, ◌++◌, length, Option, Some, None, IfSome, IfOk, OnOk};
ghost use Rattle.mix_system.specs.declared.literal.Side.TheVariants.{Le, Ge};
ghost use Rattle.mix_system.specs.Calm.{IsCalm, IsSmall};
ghost use Rattle.mix_system.specs.System.{Exists};
ghost use Rattle.level_steps.specs.Level.{available};
ghost use Rattle.level_steps.specs.Raised.{MayRaise};
ghost use Rattle.level_search.specs.Kept.{level_of, IsGoal, IsWorking};
ghost use Rattle.mixed_solver.specs.Mixed.{IsStored, IsAtGround};

use level_search::LevelSearch;
use mix_system::{Lit, Side, System, Term};
use proof_term::Step;
use std::alloc::Global;
use trail_bounds::TrailBounds;
use wx_base::NoMemory;

/// A solver on one level of a proof: a system, the added cuts, and a goal or none.
#[derive(Debug, Drop)]
pub struct Mixed<'a> {
    pub level: LevelSearch<'a>,
    pub bounds: TrailBounds<'a>,
}

impl<'a> Mixed<'a> {
    /// The solver of a calm system with a goal or none.
    pub fn new(alloc: Global, system: &'a System, goal: Option<Lit>) -> Result<Mixed<'a>, NoMemory>
        requires calm { IsCalm system.now }
        requires goal { IfSome goal (IsGoal system.now) }
        ensures ground { IfOk result IsAtGround }
        ensures level { IfOk result (λ it. level_of it.level
            ≡ record { system = system.entry.now; cuts = []; goal = goal }) }
        ensures steps { IfOk result (λ it. it.level.steps.items ≡ []) }
    {
        let level = first_level(alloc, system, goal)?;
        let bounds = TrailBounds::new(alloc, system)?;
        Ok(Mixed { level, bounds })
    }

    /// Adds a cut, and gives its local number. No step was logged yet.
    pub fn add_cut(&mut self, term: Term, bound: i128) -> Result<u32, NoMemory>
        requires ground { IsAtGround self.old }
        requires none { self.old.level.steps.items ≡ [] }
        requires term { Exists (length self.old.level.system.now.ranges)
            (length self.old.level.system.now.rows) term }
        requires small { IsSmall bound }
        ensures ground { OnOk result (IsAtGround self.new) }
        ensures number { IfOk result (λ number. number
            ≡ length (available (level_of self.old.level) [])) }
        ensures level { OnOk result (level_of self.new.level ≡ record (level_of self.old.level) {
          cuts = self.old.level.cuts.items
              ++ record { term = term; side = Le; bound = bound } ∷ [];
        }) }
        ensures steps { OnOk result (self.new.level.steps.items ≡ []) }
    {
        self.level.add_cut(Lit {
            term,
            side: Side::Le,
            bound,
        })
    }

    /// Sets a new goal, which says more than the one before. The steps stay.
    pub fn raise(&mut self, goal: Lit) -> Result<(), NoMemory>
        requires ground { IsAtGround self.old }
        requires goal { IsGoal self.old.level.system.now goal }
        requires side { goal.side ≡ Ge }
        requires may { MayRaise (level_of self.old.level) goal }
        ensures ground { OnOk result (IsAtGround self.new) }
        ensures level { OnOk result (level_of self.new.level
            ≡ record (level_of self.old.level) { goal = Some goal }) }
        ensures steps { OnOk result (self.new.level.steps.items ≡ self.old.level.steps.items) }
    {
        self.level.set_goal(goal)
    }

    /// The steps so far: lemmas and theories by local numbers.
    pub fn steps(&self) -> &[Step]
        ensures { result.now ≡ self.now.level.steps.items }
    {
        &self.level.steps
    }
}

// The search over a system, with a goal or none.
fn first_level<'a>(
    alloc: Global,
    system: &'a System,
    goal: Option<Lit>,
) -> Result<LevelSearch<'a>, NoMemory>
    requires { IfSome goal (IsGoal system.now) }
    ensures working { IfOk result IsWorking }
    ensures level { IfOk result (λ it. level_of it
        ≡ record { system = system.entry.now; cuts = []; goal = goal }) }
    ensures steps { IfOk result (λ it. it.steps.items ≡ []) }
    ensures levels { IfOk result (λ it. it.search.trail.levels ≡ []) }
    ensures stored { IfOk result IsStored }
{
    let mut level = LevelSearch::new(alloc, system)?;
    if let Some(goal) = goal {
        level.set_goal(goal)?;
    }
    Ok(level)
}
