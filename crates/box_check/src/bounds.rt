ghost use Rattle.std.specs.Prelude.{◌≡◌, ◌↔◌, ◌-◌, ◌≤◌, pos, ◌+ℤ◌, ◌-ℤ◌, length, slice_index_or, slice_set, IsTrue, IfOk, OnOk, OnErr};
ghost use Rattle.mix_system.specs.declared.literal.Lit.{Lit as Literal};
ghost use Rattle.mix_system.specs.declared.literal.Side.TheVariants.{Le, Ge};
ghost use Rattle.mix_system.specs.Lit.{negation};
ghost use Rattle.box_check.specs.declared.bounds.Bounds.{Bounds as Kept};
ghost use Rattle.box_check.specs.Bounds.{slot_of, no_end, SaysEnd, SaysEverywhere, Says, IsOver, HasSlot, AreUpTo, Tightens, TightensEverywhere, StaysHere, Extends, IsSame, opened};

use mix_system::{Lit, Side, Term};
use std::alloc::Global;
use wx_base::NoMemory;

/// A bound that is kept, and the level on which it is in force: 1 for all levels, 0 for no bound at
/// all.
#[derive(Clone, Copy, Debug)]
pub struct End {
    level: u64,
    bound: i128,
}

/// What a bound was before it was tightened.
#[derive(Clone, Copy, Debug)]
pub struct Change {
    slot: usize,
    before: End,
}

/// The tightest bounds on the terms of a system, from both sides: those in force on all levels, and
/// those of the level in work.
/// What is kept of the levels around it isn't in force, until this level is closed.
#[derive(Debug, Drop)]
pub struct Bounds {
    vars: u32,
    // The number of the level in work, 1 where none is open.
    level: u64,
    // Four for each term, the variables first: of the upper bound that on all levels and that on
    // one, then of the lower bound.
    ends: Vec<End>,
    // The latest stands last.
    changes: Vec<Change>,
}

// The number of the bounds that are in force on all levels.
const EVERYWHERE: u64 = 1;

// Whether a bound of that level says at least what a literal says.
fn says_end(end: End, side: Side, bound: i128, level: u64) -> bool
    ensures { IsTrue result ↔ SaysEnd side bound level end }
{
    if end.level != level {
        return false;
    }
    match side {
        Side::Le => end.bound <= bound,
        Side::Ge => end.bound >= bound,
    }
}

// Whether a lower bound of that level lies above a number.
fn is_above(end: End, bound: i128, level: u64) -> bool
    ensures { IsTrue result ↔ SaysEnd Ge (bound +ℤ pos 1) level end }
{
    end.level == level && end.bound > bound
}

// Whether an upper bound of that level lies below a number.
fn is_below(end: End, bound: i128, level: u64) -> bool
    ensures { IsTrue result ↔ SaysEnd Le (bound -ℤ pos 1) level end }
{
    end.level == level && end.bound < bound
}

// The number of the level around one.
fn around(level: u64) -> u64
    ensures { result ≡ level - 1 }
{
    level.saturating_sub(1)
}

impl Bounds {
    /// No bound on any of so many variables and rows, and no level open.
    pub fn new(alloc: Global, vars: u32, rows: u32) -> Result<Bounds, NoMemory>
        ensures over { IfOk result (IsOver vars rows) }
        ensures none { IfOk result (λ bounds. (lit : Literal) → SaysEverywhere bounds lit → ⊥) }
        ensures up_to { IfOk result AreUpTo }
    {
        let terms = vars as usize + rows as usize;
        let ends = vec![in alloc; End { level: 0, bound: 0 }; 4 * terms]?;
        Ok(Bounds {
            vars,
            level: EVERYWHERE,
            ends,
            changes: Vec::new(alloc),
        })
    }

    // Where a term's bound from one side is kept that is in force on all levels, and where that of
    // one level, 1 behind it.
    fn slot(&self, term: Term, side: Side, behind: usize) -> usize
        requires { behind ≤ 1 }
        ensures { result ≡ slot_of self.now.vars term side behind }
    {
        let index = match term {
            Term::Var(var) => var as usize,
            Term::Row(row) => self.vars as usize + row as usize,
        };
        match side {
            Side::Le => 4 * index + behind,
            Side::Ge => 4 * index + 2 + behind,
        }
    }

    // What is kept at a place.
    fn end(&self, slot: usize) -> End
        ensures { result ≡ slice_index_or self.now.ends.items slot no_end }
    {
        self.ends
            .get(slot)
            .copied()
            .unwrap_or(End { level: 0, bound: 0 })
    }

    // Whether a bound of all levels says at least what a literal says.
    fn says_everywhere(&self, lit: Lit) -> bool
        ensures { IsTrue result ↔ SaysEverywhere self.now lit }
    {
        says_end(
            self.end(self.slot(lit.term, lit.side, 0)),
            lit.side,
            lit.bound,
            EVERYWHERE,
        )
    }

    /// Whether a literal is in force: some bound says at least what it says.
    pub fn says(&self, lit: Lit) -> bool
        ensures { IsTrue result ↔ Says self.now lit }
    {
        let everywhere = self.end(self.slot(lit.term, lit.side, 0));
        let here = self.end(self.slot(lit.term, lit.side, 1));
        says_end(everywhere, lit.side, lit.bound, EVERYWHERE)
            || says_end(here, lit.side, lit.bound, self.level)
    }

    /// Whether a literal is false: some bound says its negation.
    pub fn is_false(&self, lit: Lit) -> bool
        ensures { IsTrue result ↔ Says self.now (negation lit) }
    {
        match lit.side {
            Side::Le => {
                let everywhere = self.end(self.slot(lit.term, Side::Ge, 0));
                let here = self.end(self.slot(lit.term, Side::Ge, 1));
                is_above(everywhere, lit.bound, EVERYWHERE) || is_above(here, lit.bound, self.level)
            }
            Side::Ge => {
                let everywhere = self.end(self.slot(lit.term, Side::Le, 0));
                let here = self.end(self.slot(lit.term, Side::Le, 1));
                is_below(everywhere, lit.bound, EVERYWHERE) || is_below(here, lit.bound, self.level)
            }
        }
    }

    /// Puts a literal in force on the level in work.
    ///
    /// Where memory is wanting the bounds stand as before.
    pub fn put(&mut self, lit: Lit) -> Result<(), NoMemory>
        requires { HasSlot self.old lit.term }
        ensures both { OnOk result (Tightens lit self.old self.new) }
        ensures stays { OnOk result (StaysHere self.old self.new) }
        ensures extends { Extends self.old self.new }
        ensures err { OnErr result (IsSame self.old self.new) }
    {
        if self.says(lit) {
            return Ok(());
        }
        let slot = self.slot(lit.term, lit.side, 1);
        let before = self.ends[slot];
        self.changes.push(Change { slot, before })?;
        self.ends[slot] = End {
            level: self.level,
            bound: lit.bound,
        };
        Ok(())
    }

    /// Puts a literal in force on all levels.
    ///
    /// Where memory is wanting the bounds stand as before.
    pub fn put_everywhere(&mut self, lit: Lit) -> Result<(), NoMemory>
        requires slot { HasSlot self.old lit.term }
        requires up_to { AreUpTo self.old }
        ensures both { OnOk result (Tightens lit self.old self.new) }
        ensures everywhere { OnOk result (TightensEverywhere lit self.old self.new) }
        ensures up_to { OnOk result (AreUpTo self.new) }
        ensures extends { Extends self.old self.new }
        ensures err { OnErr result (IsSame self.old self.new) }
    {
        if self.says_everywhere(lit) {
            return Ok(());
        }
        let slot = self.slot(lit.term, lit.side, 0);
        let before = self.ends[slot];
        self.changes.push(Change { slot, before })?;
        self.ends[slot] = End {
            level: EVERYWHERE,
            bound: lit.bound,
        };
        Ok(())
    }

    /// Opens a level within the one in work: in force are the bounds of all levels alone.
    ///
    /// A count of levels that would pass 64 bits is answered by want of memory.
    pub fn open(&mut self) -> Result<(), NoMemory>
        ensures { OnOk result (self.new ≡ opened self.old) }
    {
        let Some(within) = self.level.checked_add(1) else {
            return Err(NoMemory);
        };
        self.level = within;
        Ok(())
    }

    /// Closes the level in work, which was opened at a mark: all that was put since is taken back.
    pub fn close(&mut self, mark: usize)
        ensures { (start : Kept) → Extends (opened start) self.old →
            mark ≡ length start.changes.items → IsSame start self.new }
    {
        self.back_to(mark);
        self.level = around(self.level);
    }

    /// How many changes were made that weren't taken back. It is a mark for [`Bounds::back_to`].
    pub fn mark(&self) -> usize
        ensures { result ≡ length self.now.changes.items }
    {
        self.changes.len()
    }

    /// Takes back what was put in force since a mark.
    pub fn back_to(&mut self, mark: usize)
        ensures { (start : Kept) → Extends start self.old → mark ≡ length start.changes.items →
            IsSame start self.new }
    {
        while self.changes.len() > mark {
            if let Some(change) = self.changes.pop() {
                self.restore(change);
            }
        }
    }

    #[tactic(auto, using(std::proofs::lemmas::List::set_past))]
    fn restore(&mut self, change: Change)
        ensures ends { self.new.ends.items
            ≡ slice_set self.old.ends.items change.slot change.before }
        ensures changes { self.new.changes.items ≡ self.old.changes.items }
        ensures vars { self.new.vars ≡ self.old.vars }
        ensures level { self.new.level ≡ self.old.level }
    {
        if change.slot < self.ends.len() {
            self.ends[change.slot] = change.before;
        }
    }
}
