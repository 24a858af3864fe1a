//! Clauses with their local numbers.

ghost use Rattle.std.specs.Prelude.{◌≡◌, ℕ, ◌+◌, ◌<◌, [], ◌∷◌, ◌++◌, length, slice_index_or, Some, None, IfOk, OnOk, All};
ghost use Rattle.mix_system.specs.System.{IsClause};
ghost use Rattle.mix_system.specs.Bounds.{unit_bounds};
ghost use Rattle.level_steps.specs.Level.{available, clause_of};
ghost use Rattle.level_steps.specs.Steps.{IsStepOn, AreOpen};
ghost use Rattle.level_steps.specs.Plain.{IsNamed, IsPlain};
ghost use Rattle.level_search.specs.Kept.{level_of, IsKept};
ghost use Rattle.level_search.specs.Learning.{Ends};

use crate::LevelSearch;
use crate::bounds::push_single;
use mix_system::Lit;
use proof_term::Step;
use std::alloc::Global;
use wx_base::NoMemory;

/// The numbers of a system's clauses.
pub(crate) fn numbers_of(alloc: Global, count: u32) -> Result<Vec<Option<u32>>, NoMemory>
    ensures count { IfOk result (λ numbers. length numbers.items ≡ count) }
    ensures each { IfOk result (λ numbers. (at : ℕ) → at < count
        → slice_index_or numbers.items at None ≡ Some at) }
{
    let mut numbers = Vec::new(alloc);
    for number in 0..count {
        numbers.push(Some(number))?;
    }
    Ok(numbers)
}

impl LevelSearch<'_> {
    // The next local number. Where it would pass 32 bits, memory is said to be wanting.
    pub(crate) fn next(&self) -> Result<u32, NoMemory>
        ensures { IfOk result (λ number. number
            ≡ length (available (level_of self.now) self.now.steps.items)) }
    {
        let finished = self.cuts.len() as u128 + self.steps.len() as u128;
        let number = self.system.clauses() as u128 + finished;
        if number >= u32::MAX as u128 {
            return Err(NoMemory);
        }
        Ok(number as u32)
    }

    /// Logs a step that is valid, and adds its clause to the store.
    pub fn log(&mut self, lits: &[Lit], step: Step) -> Result<(), NoMemory>
        requires kept { IsKept self.old }
        requires on { IsStepOn (level_of self.old) self.old.steps.items step }
        requires plain { IsPlain self.old.system.now step }
        requires named { All (IsNamed self.old.system.now) lits.now }
        requires clause { clause_of step ≡ lits.now }
        ensures kept { OnOk result (IsKept self.new) }
        ensures level { OnOk result (level_of self.new ≡ level_of self.old) }
        ensures steps { OnOk result (self.new.steps.items ≡ self.old.steps.items ++ step ∷ []) }
        ensures search { OnOk result (self.new.search ≡ record self.old.search
            { store = self.old.search.store ++ lits.now ∷ [] }) }
    {
        let number = self.next()?;
        self.steps.push(step)?;
        self.add(lits, Some(number))
    }

    /// Logs a step that is valid and whose clause is empty.
    pub fn end(&mut self, step: Step) -> Result<(), NoMemory>
        requires kept { IsKept self.old }
        requires on { IsStepOn (level_of self.old) self.old.steps.items step }
        requires plain { IsPlain self.old.system.now step }
        requires open { AreOpen self.old.steps.items }
        requires empty { clause_of step ≡ [] }
        ensures ends { OnOk result (Ends self.old self.new) }
        ensures steps { OnOk result (self.new.steps.items ≡ self.old.steps.items ++ step ∷ []) }
    {
        self.steps.push(step)?;
        Ok(())
    }

    // Adds a clause to the store, with its local number, and its literal to the single ones where
    // it has no other.
    pub(crate) fn add(&mut self, lits: &[Lit], number: Option<u32>) -> Result<(), NoMemory>
        requires { IsClause
            (length self.old.search.trail.ranges) self.old.search.trail.rows lits.now }
        ensures store { OnOk result (self.new.search ≡ record self.old.search
            { store = self.old.search.store ++ lits.now ∷ [] }) }
        ensures numbers { OnOk result (self.new.numbers.items
            ≡ self.old.numbers.items ++ number ∷ []) }
        ensures singles { OnOk result (self.new.singles.items
            ≡ self.old.singles.items ++ unit_bounds (lits.now ∷ [])) }
        ensures system { self.new.system ≡ self.old.system }
        ensures cuts { self.new.cuts.items ≡ self.old.cuts.items }
        ensures goal { self.new.goal ≡ self.old.goal }
        ensures steps { self.new.steps.items ≡ self.old.steps.items }
    {
        self.numbers.push(number)?;
        push_single(&mut self.singles, lits)?;
        self.search.add_clause(lits)?;
        Ok(())
    }
}
