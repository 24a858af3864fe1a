ghost use Rattle.std.specs.Prelude.{◌≡◌, ◌^◌, ◌<◌, ◌≤◌, ◌↔◌, [], ◌∷◌, ◌++◌, length, take, slice_get, Some, IsTrue, IfOk, OnOk, OnErr};
ghost use Rattle.mix_system.specs.System.{IsInner, IsClause, Exists};
ghost use Rattle.mix_system.specs.Bounds.{IsIn, IsFalseIn};
ghost use Rattle.bound_trail.specs.Trail.{box, level_end, IsOpen, BecameFalse, IsTrail};
ghost use Rattle.clause_search.specs.Search.{WasQuiet, HasGrown, Propagated};
ghost use Rattle.clause_search.specs.Answers.{IsConflict, Says};
ghost use Rattle.clause_search.specs.Decided.{Decides};
ghost use Rattle.clause_search.specs.Learnt.{Teaches};
ghost use Rattle.clause_search.specs.Stored.{AreClauses};

use crate::clause_trail::ClauseTrail;
use crate::watches::Watches;
use crate::{Learnt, Spread};
use mix_system::{Lit, System, Tally};
use std::alloc::Global;
use std::marker::Model;
use wx_base::NoMemory;

/// A store of clauses, and a trail of literals over it, in levels.
///
/// Contracts see the clauses by their numbers, and the trail with the ranges of the system's
/// variables.
#[derive(Debug, Drop)]
pub struct Search {
    known: ClauseTrail,
    watches: Watches,
}

impl Model for Search {
    ghost use Rattle.clause_search.specs.Search.{Search as State};

    ghost Value = { State };

    ghost use Rattle.clause_search.specs.Watched.{IsRight};

    ghost view = { λ it. it.known };

    ghost invariant = { λ it. IsRight it.known it.watches };
}

impl Search {
    /// A search whose store has the system's clauses, with their numbers, and whose trail is empty.
    pub fn new(alloc: Global, system: &System) -> Result<Search, NoMemory>
        ensures store { IfOk result (λ search_. search_.store ≡ system.now.clauses) }
        ensures trail { IfOk result
            (λ search_. search_.trail ≡ record {
              ranges = system.now.ranges;
              rows = length
                  system.now.rows;
              lits = [];
              levels = [];
            }) }
    {
        let known = ClauseTrail::new(alloc, system)?;
        let places = 2 * (system.vars() as usize + system.rows() as usize);
        let watches = Watches::new(alloc, places)?;
        Ok(Search { known, watches })
    }

    /// Adds a clause to the store, and gives its number.
    /// The terms exist, no literal stands twice, and no bound is the least or the greatest `i128`.
    ///
    /// Where memory is wanting, and where the store would reach 2^31 clauses, the search stands as
    /// before.
    pub fn add_clause(&mut self, lits: &[Lit]) -> Result<u32, NoMemory>
        requires { IsClause (length self.old.trail.ranges) self.old.trail.rows lits.now }
        ensures number { IfOk result (λ number. number ≡ length self.old.store) }
        ensures ok { OnOk result (self.new ≡ record self.old {
          store = self.old.store ++ lits.now ∷
              [];
        }) }
        ensures err { OnErr result (self.new ≡ self.old) }
    {
        self.known.add_clause(lits)
    }

    /// How many clauses the store has.
    pub fn clauses(&self) -> u32
        ensures count { result ≡ length self.now.store }
        ensures clauses { AreClauses self.now }
        ensures trail { IsTrail self.now.trail }
    {
        self.known.clauses()
    }

    /// The literals of a clause.
    pub fn clause(&self, at: u32) -> &[Lit]
        requires { at < length self.now.store }
        ensures lits { slice_get self.now.store at ≡ Some result.now }
        ensures clause { IsClause (length self.now.trail.ranges) self.now.trail.rows result.now }
        ensures clauses { AreClauses self.now }
        ensures trail { IsTrail self.now.trail }
    {
        self.known.clause(at)
    }

    /// The literals on the trail in order. It takes no memory.
    pub fn trail(&self) -> &[Lit]
        ensures lits { result.now ≡ self.now.trail.lits }
        ensures trail { IsTrail self.now.trail }
    {
        self.known.trail()
    }

    /// The places on the trail at which the levels 1, 2, .. begin. It takes no memory.
    pub fn levels(&self) -> &[u32]
        ensures levels { result.now ≡ self.now.trail.levels }
        ensures trail { IsTrail self.now.trail }
    {
        self.known.levels()
    }

    /// Whether a literal is true by the ranges and the trail. It takes no memory.
    pub fn is_true(&self, lit: &Lit) -> bool
        requires { Exists (length self.now.trail.ranges) self.now.trail.rows lit.now.term }
        ensures { IsTrue result ↔ IsIn (box self.now.trail) lit.now }
    {
        self.known.is_true(lit)
    }

    /// Whether a literal is false by the ranges and the trail. It takes no memory.
    pub fn is_false(&self, lit: &Lit) -> bool
        requires { Exists (length self.now.trail.ranges) self.now.trail.rows lit.now.term }
        ensures { IsTrue result ↔ IsFalseIn (box self.now.trail) lit.now }
    {
        self.known.is_false(lit)
    }

    /// The level at which a false literal became false. It takes no memory.
    pub fn false_since(&self, lit: &Lit) -> u32
        requires term { Exists (length self.now.trail.ranges) self.now.trail.rows lit.now.term }
        requires is_false { IsFalseIn (box self.now.trail) lit.now }
        requires few { length self.now.trail.levels < 2 ^ 32 }
        ensures { BecameFalse self.now.trail lit.now result }
    {
        self.known.false_since(lit)
    }

    /// Opens a level that begins with a literal, which is neither true nor false, and counts a
    /// decision; or answers `false` and changes nothing, exactly where the tally is at its budget.
    /// Where memory is wanting the search stands as before.
    pub fn decide(&mut self, lit: &Lit, tally: &mut Tally) -> Result<bool, NoMemory>
        requires term { Exists (length self.old.trail.ranges) self.old.trail.rows lit.now.term }
        requires inner { IsInner lit.now.bound }
        requires open { IsOpen (box self.old.trail) lit.now }
        ensures decides { IfOk result (λ decided. Decides decided lit.now self.old self.new
            tally.old tally.new) }
        ensures err { OnErr result (self.new ≡ self.old) }
    {
        self.watches.decide(&mut self.known, lit, tally)
    }

    /// Puts literals that clauses imply, one unit for each, until every clause has a true literal
    /// or two that aren't false, a clause is false, or the budget is spent where some clause still
    /// implies a literal. Where memory is wanting, some literals that clauses imply may have been
    /// put.
    pub fn propagate(&mut self, tally: &mut Tally) -> Result<Spread, NoMemory>
        ensures propagated { IfOk result (λ _. Propagated self.old self.new tally.old tally.new) }
        ensures says { IfOk result (λ spread. Says spread self.new tally.new) }
        ensures err { OnErr result (HasGrown self.old self.new) }
    {
        self.watches.propagate(&mut self.known, tally)
    }

    /// Learns from a false clause, and counts a conflict; or answers `Spent` and counts nothing,
    /// exactly where the tally is at its budget. At the end of each level below the present one
    /// every clause had a true literal or two that weren't false.
    ///
    /// Above level 0 it learns a clause, by going back to the first literal that alone leads to the
    /// conflict on its level (J. P. Marques-Silva and K. A. Sakallah, GRASP: a search algorithm for
    /// propositional satisfiability, 1999).
    pub fn analyse(
        &self,
        alloc: Global,
        conflict: u32,
        tally: &mut Tally,
    ) -> Result<Learnt, NoMemory>
        requires conflict { IsConflict self.now conflict }
        requires was_quiet { WasQuiet self.now }
        ensures { IfOk result (λ learnt. Teaches learnt self.now tally.old tally.new) }
    {
        self.known.analyse(alloc, conflict, tally)
    }

    /// Gives up all levels above one, and their literals. It takes no memory.
    pub fn back_to(&mut self, level: u32)
        requires { level ≤ length self.old.trail.levels }
        ensures store { self.new.store ≡ self.old.store }
        ensures trail { self.new.trail ≡ record self.old.trail {
          lits = take (level_end self.old.trail level) self.old.trail.lits;
          levels = take level self.old.trail.levels;
        } }
    {
        self.watches.back_to(&mut self.known, level);
    }
}
