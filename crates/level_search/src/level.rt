ghost use Rattle.std.specs.Prelude.{◌≡◌, ◌⊎◌, ◌+◌, ◌<◌, ◌≤◌, [], ◌∷◌, ◌++◌, length, map, take, Option, Some, None, IfOk, OnOk, OnErr};
ghost use Rattle.mix_system.specs.declared.literal.Side.TheVariants.{Le};
ghost use Rattle.mix_system.specs.Calm.{IsSmall};
ghost use Rattle.mix_system.specs.System.{IsInner, Exists, IsClause};
ghost use Rattle.bound_trail.specs.Trail.{box, level_end, IsOpen, IsTrail};
ghost use Rattle.clause_search.specs.Answers.{Says};
ghost use Rattle.clause_search.specs.Decided.{Decides};
ghost use Rattle.clause_search.specs.Search.{HasGrown, Propagated};
ghost use Rattle.level_steps.specs.Level.{Level, available};
ghost use Rattle.level_steps.specs.Steps.{AreSteps};
ghost use Rattle.level_steps.specs.Plain.{IsNamed};
ghost use Rattle.level_steps.specs.Raised.{MayRaise};
ghost use Rattle.level_search.specs.Kept.{level_of, IsKept, IsAllowed};

use crate::bounds::singles_of;
use crate::log::numbers_of;
use clause_search::{Search, Spread};
use mix_system::{Lit, System, Tally};
use proof_term::Step;
use std::alloc::Global;
use wx_base::NoMemory;

/// A search over the clauses of one level of a proof, with the steps that it has logged.
///
/// What holds between calls is said by `IsKept`. Want of memory in `propagate` and `decide` leaves it
/// so; after want of memory in another call nothing is said any more.
#[derive(Debug, Drop)]
pub struct LevelSearch<'a> {
    pub system: &'a System,
    /// The cuts of the levels around, each `term <= bound`.
    pub cuts: Vec<Lit>,
    /// The literal that says that the goal isn't met.
    pub goal: Option<Lit>,
    pub steps: Vec<Step>,
    /// The level's clauses, and those of its goals, with a trail over them.
    pub search: Search,
    /// Beside each clause of the store its local number, and nothing where it is a goal's.
    pub numbers: Vec<Option<u32>>,
    /// The literals of the store's clauses that have one literal.
    pub singles: Vec<Lit>,
}

impl<'a> LevelSearch<'a> {
    /// The search over a system, on a level without cuts or a goal.
    pub fn new(alloc: Global, system: &'a System) -> Result<LevelSearch<'a>, NoMemory>
        ensures kept { IfOk result IsKept }
        ensures level { IfOk result
            (λ it. level_of it ≡ record { system = system.entry.now; cuts = []; goal = None }) }
        ensures steps { IfOk result (λ it. it.steps.items ≡ []) }
        ensures store { IfOk result (λ it. it.search.store ≡ system.entry.now.clauses) }
        ensures lits { IfOk result (λ it. it.search.trail.lits ≡ []) }
        ensures levels { IfOk result (λ it. it.search.trail.levels ≡ []) }
    {
        let search = Search::new(alloc, system)?;
        let numbers = numbers_of(alloc, system.clauses())?;
        let singles = singles_of(alloc, system)?;
        Ok(LevelSearch {
            system,
            cuts: Vec::new(alloc),
            goal: None,
            steps: Vec::new(alloc),
            search,
            numbers,
            singles,
        })
    }

    /// Adds a cut of a level around, and gives its local number. No step was logged yet.
    pub fn add_cut(&mut self, cut: Lit) -> Result<u32, NoMemory>
        requires kept { IsKept self.old }
        requires term { Exists (length self.old.system.now.ranges)
            (length self.old.system.now.rows) cut.term }
        requires side { cut.side ≡ Le }
        requires small { IsSmall cut.bound }
        requires none { self.old.steps.items ≡ [] }
        ensures kept { OnOk result (IsKept self.new) }
        ensures number { IfOk result (λ number. number
            ≡ length (available (level_of self.old) self.old.steps.items)) }
        ensures level { OnOk result (level_of self.new ≡ record (level_of self.old)
            { cuts = self.old.cuts.items ++ cut ∷ [] }) }
        ensures steps { OnOk result (self.new.steps.items ≡ []) }
        ensures search { OnOk result (self.new.search ≡ record self.old.search
            { store = self.old.search.store ++ (cut ∷ []) ∷ [] }) }
    {
        let number = self.next()?;
        self.cuts.push(cut)?;
        self.add(&[cut], Some(number))?;
        Ok(number)
    }

    /// Sets a goal, in place of the one before: its literal says that the goal isn't met. The steps
    /// so far stay as they are.
    pub fn set_goal(&mut self, goal: Lit) -> Result<(), NoMemory>
        requires kept { IsKept self.old }
        requires term { Exists (length self.old.system.now.ranges)
            (length self.old.system.now.rows) goal.term }
        requires small { IsSmall goal.bound }
        requires may { MayRaise (level_of self.old) goal
            ⊎ ((self.old.goal ≡ None) × (self.old.steps.items ≡ [])) }
        ensures kept { OnOk result (IsKept self.new) }
        ensures level { OnOk result (level_of self.new ≡ record (level_of self.old)
            { goal = Some goal }) }
        ensures steps { OnOk result (self.new.steps.items ≡ self.old.steps.items) }
        ensures search { OnOk result (self.new.search ≡ record self.old.search
            { store = self.old.search.store ++ (goal ∷ []) ∷ [] }) }
    {
        self.goal = Some(goal);
        self.add(&[goal], None)
    }

    /// Propagates, as the search does.
    pub fn propagate(&mut self, tally: &mut Tally) -> Result<Spread, NoMemory>
        requires kept { IsKept self.old }
        ensures kept { IsKept self.new }
        ensures level { level_of self.new ≡ level_of self.old }
        ensures steps { self.new.steps.items ≡ self.old.steps.items }
        ensures propagated { IfOk result
            (λ _. Propagated self.old.search self.new.search tally.old tally.new) }
        ensures says { IfOk result (λ spread. Says spread self.new.search tally.new) }
        ensures err { OnErr result (HasGrown self.old.search self.new.search) }
    {
        self.search.propagate(tally)
    }

    /// Decides a literal of the system's clauses, as the search does.
    pub fn decide(&mut self, lit: &Lit, tally: &mut Tally) -> Result<bool, NoMemory>
        requires kept { IsKept self.old }
        requires term { Exists (length self.old.system.now.ranges)
            (length self.old.system.now.rows) lit.now.term }
        requires inner { IsInner lit.now.bound }
        requires named { IsNamed self.old.system.now lit.now }
        requires open { IsOpen (box self.old.search.trail) lit.now }
        ensures kept { IsKept self.new }
        ensures level { level_of self.new ≡ level_of self.old }
        ensures steps { self.new.steps.items ≡ self.old.steps.items }
        ensures decides { IfOk result (λ decided. Decides decided lit.now
            self.old.search self.new.search tally.old tally.new) }
        ensures err { OnErr result (self.new.search ≡ self.old.search) }
    {
        self.search.decide(lit, tally)
    }

    /// Gives up all levels above one, and their literals. It takes no memory.
    pub fn back_to(&mut self, level: u32)
        requires kept { IsKept self.old }
        requires level { level ≤ length self.old.search.trail.levels }
        ensures kept { IsKept self.new }
        ensures level { level_of self.new ≡ level_of self.old }
        ensures steps { self.new.steps.items ≡ self.old.steps.items }
        ensures store { self.new.search.store ≡ self.old.search.store }
        ensures trail { self.new.search.trail ≡ record self.old.search.trail {
          lits = take (level_end self.old.search.trail level) self.old.search.trail.lits;
          levels = take level self.old.search.trail.levels;
        } }
    {
        self.search.back_to(level);
    }

    /// How many literals of the trail stand on level 0.
    pub fn ground(&self) -> u32
        ensures { result ≡ level_end self.now.search.trail 0 }
    {
        match self.search.levels() {
            [] => self.search.trail().len() as u32,
            [first, ..] => *first,
        }
    }

    /// The allocator. It takes no memory.
    pub fn alloc(&self) -> Global {
        *self.steps.allocator()
    }
}
