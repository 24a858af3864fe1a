ghost use Rattle.std.specs.Prelude.{◌≡◌, ◌+◌, ◌^◌, ◌<◌, ◌≤◌, ◌↔◌, [], ◌∷◌, ◌++◌, length, take, slice_get, Some, IsTrue, IfOk, OnOk, OnErr};
ghost use Rattle.mix_system.specs.System.{IsInner, IsClause, Exists};
ghost use Rattle.mix_system.specs.Bounds.{IsIn, IsFalseIn};
ghost use Rattle.bound_trail.specs.Trail.{box, level_end, IsOpen, IsTrail};
ghost use Rattle.clause_search.specs.Decided.{Decides};
ghost use Rattle.clause_search.specs.Stored.{IsReason, AreClauses};

use crate::store::ClauseStore;
use bound_trail::BoundTrail;
use mix_system::{Lit, System, Tally, Work};
use std::alloc::Global;
use std::marker::Model;
use wx_base::NoMemory;

/// A store of clauses, and a trail of literals over it, in levels.
///
/// Contracts see the clauses by their numbers, and the trail with the ranges of the system's
/// variables.
#[derive(Debug, Drop)]
pub(crate) struct ClauseTrail {
    clauses: ClauseStore,
    trail: BoundTrail,
    // Beside each literal of the trail the number of the clause that implied it, and nothing where
    // it was decided.
    reasons: Vec<Option<u32>>,
}

impl Model for ClauseTrail {
    ghost use Rattle.clause_search.specs.Search.{Search as State};

    ghost Value = { State };

    ghost use Rattle.clause_search.specs.Stored.{lists, IsSound};

    ghost view = { lists };

    ghost invariant = { IsSound };
}

impl ClauseTrail {
    /// A search whose store has the system's clauses, with their numbers, and whose trail is empty.
    pub(crate) fn new(alloc: Global, system: &System) -> Result<ClauseTrail, NoMemory>
        ensures store { IfOk result (λ search_. search_.store ≡ system.now.clauses) }
        ensures trail { IfOk result
            (λ search_. search_.trail ≡ record {
              ranges = system.now.ranges;
              rows = length
                  system.now.rows;
              lits = [];
              levels = [];
            }) }
    {
        let trail = BoundTrail::new(alloc, system)?;
        let mut state = ClauseTrail {
            clauses: ClauseStore::new(alloc),
            trail,
            reasons: Vec::new(alloc),
        };
        for at in 0..system.clauses() {
            state.add_clause(system.clause(at))?;
        }
        Ok(state)
    }

    /// Adds a clause to the store, and gives its number.
    /// The terms exist, no literal stands twice, and no bound is the least or the greatest `i128`.
    ///
    /// Where memory is wanting, and where the store would reach 2^31 clauses, the search stands as
    /// before.
    pub(crate) fn add_clause(&mut self, lits: &[Lit]) -> Result<u32, NoMemory>
        requires { IsClause (length self.old.trail.ranges) self.old.trail.rows lits.now }
        ensures number { IfOk result (λ number. number ≡ length self.old.store) }
        ensures ok { OnOk result (self.new ≡ record self.old {
          store = self.old.store ++ lits.now ∷
              [];
        }) }
        ensures err { OnErr result (self.new ≡ self.old) }
    {
        let number = self.clauses.len();
        if number >= MOST_CLAUSES {
            return Err(NoMemory);
        }
        self.clauses.add(lits)?;
        Ok(number as u32)
    }

    /// How many clauses the store has.
    pub(crate) fn clauses(&self) -> u32
        ensures count { result ≡ length self.now.store }
        ensures clauses { AreClauses self.now }
        ensures trail { IsTrail self.now.trail }
    {
        self.clauses.len() as u32
    }

    /// The literals of a clause.
    pub(crate) fn clause(&self, at: u32) -> &[Lit]
        requires { at < length self.now.store }
        ensures lits { slice_get self.now.store at ≡ Some result.now }
        ensures clause { IsClause (length self.now.trail.ranges) self.now.trail.rows result.now }
        ensures clauses { AreClauses self.now }
        ensures trail { IsTrail self.now.trail }
    {
        self.clauses.get(at)
    }

    /// The literals on the trail in order. It takes no memory.
    pub(crate) fn trail(&self) -> &[Lit]
        ensures lits { result.now ≡ self.now.trail.lits }
        ensures trail { IsTrail self.now.trail }
    {
        self.trail.lits()
    }

    /// The places on the trail at which the levels 1, 2, .. begin. It takes no memory.
    pub(crate) fn levels(&self) -> &[u32]
        ensures levels { result.now ≡ self.now.trail.levels }
        ensures trail { IsTrail self.now.trail }
    {
        self.trail.levels()
    }

    /// Whether a literal is true by the ranges and the trail. It takes no memory.
    pub(crate) fn is_true(&self, lit: &Lit) -> bool
        requires { Exists (length self.now.trail.ranges) self.now.trail.rows lit.now.term }
        ensures { IsTrue result ↔ IsIn (box self.now.trail) lit.now }
    {
        self.trail.is_true(lit)
    }

    /// Whether a literal is false by the ranges and the trail. It takes no memory.
    pub(crate) fn is_false(&self, lit: &Lit) -> bool
        requires { Exists (length self.now.trail.ranges) self.now.trail.rows lit.now.term }
        ensures { IsTrue result ↔ IsFalseIn (box self.now.trail) lit.now }
    {
        self.trail.is_false(lit)
    }

    /// Opens a level that begins with a literal, which is neither true nor false, and counts a
    /// decision; or answers `false` and changes nothing, exactly where the tally is at its budget.
    /// Where memory is wanting the search stands as before.
    pub(crate) fn decide(&mut self, lit: &Lit, tally: &mut Tally) -> Result<bool, NoMemory>
        requires term { Exists (length self.old.trail.ranges) self.old.trail.rows lit.now.term }
        requires inner { IsInner lit.now.bound }
        requires open { IsOpen (box self.old.trail) lit.now }
        ensures decides { IfOk result (λ decided. Decides decided lit.now self.old self.new
            tally.old tally.new) }
        ensures err { OnErr result (self.new ≡ self.old) }
    {
        if !tally.tick(Work::Decision) {
            return Ok(false);
        }
        let count = self.reasons.len();
        self.reasons.push(None)?;
        if self.trail.open_level(lit).is_err() {
            self.reasons.truncate(count);
            return Err(NoMemory);
        }
        Ok(true)
    }

    /// Gives up all levels above one, and their literals. It takes no memory.
    pub(crate) fn back_to(&mut self, level: u32)
        requires { level ≤ length self.old.trail.levels }
        ensures sound { IsTrail self.old.trail }
        ensures store { self.new.store ≡ self.old.store }
        ensures trail { self.new.trail ≡ record self.old.trail {
          lits = take (level_end self.old.trail level) self.old.trail.lits;
          levels = take level self.old.trail.levels;
        } }
    {
        self.trail.back_to(level);
        self.reasons.truncate(self.trail.lits().len());
    }

    /// Puts a literal that a clause implies. Where memory is wanting the search stands as before.
    pub(crate) fn imply(&mut self, lit: &Lit, reason: u32) -> Result<(), NoMemory>
        requires reason { IsReason
            (record self.old {
              trail = record self.old.trail {
                lits = self.old.trail.lits ++
                    lit.now ∷ [];
              };
            }) (length self.old.trail.lits) (Some reason) }
        requires term { Exists (length self.old.trail.ranges) self.old.trail.rows lit.now.term }
        requires inner { IsInner lit.now.bound }
        requires open { IsOpen (box self.old.trail) lit.now }
        ensures ok { OnOk result (self.new ≡ record self.old {
          trail = record self.old.trail {
            lits
                = self.old.trail.lits ++ lit.now ∷ [];
          };
        }) }
        ensures err { OnErr result (self.new ≡ self.old) }
    {
        let count = self.reasons.len();
        self.reasons.push(Some(reason))?;
        if self.trail.push(lit).is_err() {
            self.reasons.truncate(count);
            return Err(NoMemory);
        }
        Ok(())
    }

    /// The clause that implied the literal at a place, and nothing where it was decided.
    pub(crate) fn reason(&self, at: u32) -> Option<u32>
        requires { at < length self.now.trail.lits }
        ensures { IsReason self.now at result }
    {
        self.reasons[at as usize]
    }

    /// The trail.
    pub(crate) fn bounds(&self) -> &BoundTrail
        ensures trail { result.now ≡ self.now.trail }
        ensures clauses { AreClauses self.now }
        ensures sound { IsTrail self.now.trail }
    {
        let trail = &self.trail;
        let _lits = trail.lits();
        trail
    }
}

// The number of clauses stays below 2^31.
const MOST_CLAUSES: usize = (1 << 31) - 1;
