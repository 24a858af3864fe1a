ghost use Rattle.std.specs.Prelude.{◌≡◌, ◌<◌, length, IfOk, OnOk, All};
ghost use Rattle.bound_trail.specs.Trail.{IsTrail};
ghost use Rattle.clause_search.specs.Answers.{IsConflict};
ghost use Rattle.clause_search.specs.Learnt.{IsLearnt, IsTop};
ghost use Rattle.level_search.specs.Kept.{level_of, IsWorking, GoalStands};
ghost use Rattle.level_search.specs.Learning.{Ends, Learns, Concludes, CountsConflict};
ghost use Rattle.level_search.specs.Local.{local_hints};

use crate::LevelSearch;
use clause_search::Learnt;
use mix_system::{Hints, Lits, Tally};
use proof_term::Step;
use std::alloc::Global;
use wx_base::{Copied, NoMemory};

/// What a conflict or a refutation comes to.
#[derive(Clone, Copy, Debug, PartialEq, Eq)]
pub enum Learning {
    /// A clause was logged and added, and the search stands at the level on which it has one
    /// literal left, or where it is false.
    Going,
    /// The empty clause was logged.
    Ended,
    /// The budget was spent before.
    Spent,
}

impl LevelSearch<'_> {
    /// Learns from a false clause and logs that as a lemma, goes back and adds the clause.
    pub fn learn(&mut self, conflict: u32, tally: &mut Tally) -> Result<Learning, NoMemory>
        requires working { IsWorking self.old }
        requires goal { GoalStands (level_of self.old) self.old.steps.items }
        requires conflict { IsConflict self.old.search conflict }
        ensures concludes { IfOk result (λ learning. Concludes learning self.old self.new) }
        ensures counted { IfOk result
            (λ learning. CountsConflict learning tally.old tally.new) }
    {
        let alloc = self.alloc();
        let _levels = self.search.levels();
        match self.search.analyse(alloc, conflict, tally)? {
            Learnt::Spent => Ok(Learning::Spent),
            Learnt::Top { hints } => {
                self.end_by(&hints)?;
                Ok(Learning::Ended)
            }
            Learnt::Clause { lits, hints, level } => {
                self.learn_clause(&lits, &hints, level)?;
                Ok(Learning::Going)
            }
        }
    }

    // Logs the empty clause as a lemma.
    fn end_by(&mut self, hints: &Hints) -> Result<(), NoMemory>
        requires working { IsWorking self.old }
        requires goal { GoalStands (level_of self.old) self.old.steps.items }
        requires top { IsTop self.old.search hints.now }
        ensures { OnOk result (Ends self.old self.new) }
    {
        let alloc = self.alloc();
        let hints = self.local_hints(alloc, hints.items())?;
        let clause = Lits::new(alloc);
        self.end(Step::Lemma { clause, hints })
    }

    // Logs a clause as a lemma, goes back and adds it.
    fn learn_clause(&mut self, lits: &Lits, hints: &Hints, level: u32) -> Result<(), NoMemory>
        requires working { IsWorking self.old }
        requires trail { IsTrail self.old.search.trail }
        requires learnt { IsLearnt self.old.search lits.now hints.now level }
        ensures { OnOk result (Learns self.old self.new) }
    {
        let alloc = self.alloc();
        let hints = self.local_hints(alloc, hints.items())?;
        let clause = lits.copy(alloc)?;
        self.search.back_to(level);
        self.log(lits.items(), Step::Lemma { clause, hints })
    }

    // The hints by local numbers. Those that name a goal's clause say nothing that the box doesn't
    // say, and are left out.
    fn local_hints(&self, alloc: Global, hints: &[u32]) -> Result<Hints, NoMemory>
        requires { All (λ hint. hint < length self.now.numbers.items) hints.now }
        ensures { IfOk result (λ local. local ≡ local_hints self.now.numbers.items hints.now) }
    {
        let mut local = Hints::with_capacity(alloc, hints.len())?;
        for hint in hints {
            let Some(number) = self.numbers[*hint as usize] else {
                continue;
            };
            local.push(number)?;
        }
        Ok(local)
    }
}
