ghost use Rattle.std.specs.Prelude.{◌≡◌, ◌+◌, ◌++◌, ◌∷◌, [], List, length, MatchOption, Some, None, OnOk};
ghost use Rattle.proof_term.specs.Levels.{available, clause_of};
ghost use Rattle.proof_term.specs.Valid.{ends_empty};
ghost use Rattle.open_levels.specs.Stack.{OpenLevel, ended_on, levels_of, level_of};

use crate::EndedSteps;
use mix_system::Lit;
use proof_term::Goal;
use std::alloc::Global;
use std::marker::Model;
use wx_base::NoMemory;

/// An open level: its goal, where the bounds of the level around it ended as it was opened, and how
/// many steps had ended before it.
#[derive(Clone, Copy, Debug)]
pub struct LevelMark {
    pub goal: Goal,
    pub mark: usize,
    pub from: usize,
}

/// The open levels with the steps that have ended on them, all in one list, and the number of the
/// next step. Contracts see each level with its own steps.
#[derive(Debug, Drop)]
pub struct LevelStack {
    next: u64,
    steps: EndedSteps,
    last: LevelMark,
    // The innermost first.
    around: Vec<LevelMark>,
}

impl Model for LevelStack {
    ghost use Rattle.open_levels.specs.Stack.{Stack};

    ghost Value = { Stack };

    ghost use Rattle.open_levels.specs.Marks.{stack, IsStack};

    ghost view = { stack };

    ghost invariant = { IsStack };
}

impl LevelStack {
    /// One level with that goal, whose first step gets that number. It takes no memory.
    pub fn new(alloc: Global, next: u64, goal: Goal) -> LevelStack
        ensures { result ≡ record {
          next = next;
          last = record {
            goal = goal;
            mark = 0;
            ended = [];
          };
          enclosing = [];
        } }
    {
        LevelStack {
            next,
            steps: EndedSteps::new(alloc),
            last: LevelMark {
                goal,
                mark: 0,
                from: 0,
            },
            around: Vec::new(alloc),
        }
    }

    /// The number of the next step that ends.
    pub fn next(&self) -> u64
        ensures { result ≡ self.now.next }
    {
        self.next
    }

    /// The goal of the last level.
    pub fn goal(&self) -> Goal
        ensures { result ≡ self.now.last.goal }
    {
        self.last.goal
    }

    /// Where the bounds of the level around the last one ended.
    pub fn mark(&self) -> usize
        ensures { result ≡ self.now.last.mark }
    {
        self.last.mark
    }

    /// How many levels stand around the last one.
    pub fn around(&self) -> usize
        ensures { result ≡ length self.now.enclosing }
    {
        self.around.len()
    }

    /// A step ends on the last level.
    ///
    /// A count of steps that would pass 64 bits is answered by want of memory.
    pub fn push(&mut self, clause: &[Lit], is_cut: bool) -> Result<(), NoMemory>
        ensures { OnOk result (self.new ≡ ended_on self.old clause.now is_cut) }
    {
        let Some(later) = self.next.checked_add(1) else {
            return Err(NoMemory);
        };
        self.steps.push(self.next, clause, is_cut)?;
        self.next = later;
        Ok(())
    }

    /// Opens a level within the last one.
    pub fn open(&mut self, goal: Goal, mark: usize) -> Result<(), NoMemory>
        ensures { OnOk result (self.new ≡ record self.old {
          last = record {
            goal = goal;
            mark = mark;
            ended = [];
          };
          enclosing = self.old.last ∷ self.old.enclosing;
        }) }
    {
        self.around.insert(0, self.last)?;
        self.last = LevelMark {
            goal,
            mark,
            from: self.steps.len(),
        };
        Ok(())
    }

    /// Closes the last level, with its steps, where one stands around it. Else nothing changes.
    pub fn close(&mut self)
        ensures { (outer : OpenLevel) (others : List OpenLevel) →
            self.old.enclosing ≡ outer ∷ others →
            self.new ≡ record self.old { last = outer; enclosing = others } }
    {
        if self.around.is_empty() {
            return;
        }
        self.steps.truncate(self.last.from);
        self.last = self.around.remove(0);
    }

    /// Whether the newest step of the last level is the empty clause.
    pub fn has_ended(&self) -> bool
        ensures { result ≡ ends_empty (level_of self.now.last).finished }
    {
        let count = self.steps.len();
        if count <= self.last.from {
            return false;
        }
        self.steps.clause(count - 1).is_empty()
    }

    /// The clause of that number among the steps of the last level and the cuts of those around it.
    pub fn clause(&self, number: u64) -> Option<&[Lit]>
        ensures { MatchOption result
            (clause_of number (available (levels_of self.now.last self.now.enclosing)) ≡ None)
            (λ clause. clause_of number
            (available (levels_of self.now.last self.now.enclosing)) ≡ Some clause.now) }
    {
        let Some(at) = self.steps.place(number) else {
            return None;
        };
        if at >= self.last.from {
            return Some(self.steps.clause(at));
        }
        if !self.steps.is_cut(at) {
            return None;
        }
        Some(self.steps.clause(at))
    }
}
