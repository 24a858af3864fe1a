ghost use Rattle.std.specs.Prelude.{◌≡◌, ◌-◌, ◌^◌, ◌<◌, ◌≤◌, [], List, length, IfOk};
ghost use Rattle.bound_trail.specs.Trail.{level_end};
ghost use Rattle.clause_search.specs.Search.{WasQuiet, present_level};
ghost use Rattle.clause_search.specs.Answers.{IsConflict};
ghost use Rattle.clause_search.specs.Learnt.{Concludes, Teaches};
ghost use Rattle.clause_search.specs.Runs.{IsAim};

use crate::Learnt;
use crate::clause_trail::ClauseTrail;
use mix_system::{Tally, Work};
use std::alloc::Global;
use wx_base::NoMemory;

impl ClauseTrail {
    /// Learns from a false clause, and counts a conflict; or answers `Spent` and counts nothing,
    /// exactly where the tally is at its budget.
    pub fn analyse(
        &self,
        alloc: Global,
        conflict: u32,
        tally: &mut Tally,
    ) -> Result<Learnt, NoMemory>
        requires conflict { IsConflict self.now conflict }
        requires was_quiet { WasQuiet self.now }
        ensures { IfOk result (λ learnt. Teaches learnt self.now tally.old tally.new) }
    {
        if !tally.tick(Work::Conflict) {
            return Ok(Learnt::Spent);
        }
        let levels = self.levels();
        if levels.len() == 0 {
            return self.refute(alloc, conflict);
        }
        if levels.len() > u32::MAX as usize {
            return Err(NoMemory);
        }
        self.learn(alloc, conflict, levels[levels.len() - 1])
    }

    // Learns a clause, above level 0; the last level begins at `start`.
    fn learn(&self, alloc: Global, conflict: u32, start: u32) -> Result<Learnt, NoMemory>
        requires conflict { IsConflict self.now conflict }
        requires was_quiet { WasQuiet self.now }
        requires above { 0 < present_level self.now }
        requires few { present_level self.now < 2 ^ 32 }
        requires start { level_end self.now.trail (present_level self.now - 1) ≡ start }
        ensures { IfOk result (λ learnt. Concludes learnt self.now) }
    {
        let mut marks = self.no_marks(alloc)?;
        let end = self.trail().len() as u32;
        let lowest = self.mark_causes(self.clause(conflict), start, end, &mut marks);
        self.find_point(start, lowest, &mut marks);
        self.resolve_below(self.levels()[0], &mut marks);
        let lits = self.kept(alloc, &marks)?;
        let level = self.back_level(start, &marks);
        let hints = self.hints(alloc, &marks, end, conflict)?;
        Ok(Learnt::Clause { lits, hints, level })
    }

    // Finds the hints of the empty clause, at level 0.
    fn refute(&self, alloc: Global, conflict: u32) -> Result<Learnt, NoMemory>
        requires conflict { IsConflict self.now conflict }
        requires level { self.now.trail.levels ≡ [] }
        ensures { IfOk result (λ learnt. Concludes learnt self.now) }
    {
        let (end, last) = self.aim(conflict);
        let mut marks = self.no_marks(alloc)?;
        let top = self.trail().len() as u32;
        self.mark_causes(self.clause(last), top, top, &mut marks);
        self.resolve_below(end, &mut marks);
        let hints = self.hints(alloc, &marks, end, last)?;
        Ok(Learnt::Top { hints })
    }

    // The clause that hints end with at level 0, and the place before which they stop. A clause of
    // one literal that isn't true on the trail may make a literal of the trail false, and the
    // reason of the first such literal is wholly false: hints end with it.
    fn aim(&self, conflict: u32) -> (u32, u32)
        requires conflict { IsConflict self.now conflict }
        requires level { self.now.trail.levels ≡ [] }
        ensures { IsAim self.now result.0 result.1 }
    {
        let mut end = self.trail().len() as u32;
        let mut last = conflict;
        for at in 0..self.clauses() {
            let [only] = self.clause(at) else {
                continue;
            };
            if !self.is_false(only) {
                continue;
            }
            let Some(place) = self.bounds().cause(only) else {
                return (0, at);
            };
            if place >= end {
                continue;
            }
            let Some(reason) = self.reason(place) else {
                unreachable!()
            };
            end = place;
            last = reason;
        }
        (end, last)
    }
}
