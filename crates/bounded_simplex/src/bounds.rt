ghost use Rattle.std.specs.Prelude.{◌≡◌, ◌↔◌, ◌+◌, ◌-◌, ◌*◌, ◌<◌, ◌≤◌, ◌^◌, false, [], ◌∷◌, ◌++◌, length, take, IfOk, OnOk, IsTrue};
ghost use Rattle.bounded_simplex.specs.BoundPlaces.{place_of as place_of_side};
ghost use Rattle.mix_system.specs.System.{Exists, IsWellFormed};
ghost use Rattle.bounded_simplex.specs.Terms.{term_of};
ghost use Rattle.bounded_simplex.specs.InForce.{tightened as tighter_end, in_force, Contradict};

use mix_system::{Lit, Side, System, Term};
use std::alloc::Global;
use std::marker::Model;
use wx_base::NoMemory;

/// How many changes of bounds were in force at some time.
#[derive(Clone, Copy, Debug, PartialEq, Eq)]
pub struct Mark {
    pub changes: u32,
}

/// A literal that was put to the bounds, and the bound that it replaced.
#[derive(Clone, Copy, Debug)]
struct Change {
    lit: Lit,
    before: Option<i128>,
}

/// The bounds in force on the variables and rows of a system: those of the ranges, and of a list
/// of changes that can be given back.
///
/// Contracts see the system, the list of literals in force, and the room.
#[derive(Debug, Drop)]
pub struct Bounds<'a> {
    system: &'a System,
    // By columns: the bound from below, and then that from above.
    ends: Vec<Option<i128>>,
    changes: Vec<Change>,
    room: u32,
}

impl<'a> Model for Bounds<'a> {
    ghost use Rattle.bounded_simplex.specs.InForce.{BoundChanges};

    ghost Value = { BoundChanges };

    ghost use Rattle.bounded_simplex.specs.StoredBounds.{changes_of, IsSound};

    ghost view = { changes_of };

    ghost invariant = { IsSound };
}

impl<'a> Bounds<'a> {
    /// The bounds that the ranges of a system give, with room for so many changes.
    pub fn new(alloc: Global, system: &'a System, room: u32) -> Result<Bounds<'a>, NoMemory>
        ensures system { IfOk result (λ bounds. bounds.system ≡ system.entry.now) }
        ensures changes { IfOk result (λ bounds. bounds.changes ≡ []) }
        ensures room { IfOk result (λ bounds. bounds.room ≡ room) }
    {
        let mut ends = Vec::with_capacity(
            alloc,
            2 * (system.vars() as usize + system.rows() as usize),
        )?;
        for var in 0..system.vars() {
            let (low, high) = system.range(var);
            push_pair(&mut ends, Some(low), Some(high))?;
        }
        for _row in 0..system.rows() {
            push_pair(&mut ends, None, None)?;
        }
        let changes = Vec::with_capacity(alloc, room as usize)?;
        Ok(Bounds {
            system,
            ends,
            changes,
            room,
        })
    }

    /// The system.
    pub fn system(&self) -> &System
        ensures { result.now ≡ self.now.system }
    {
        self.system
    }

    /// How many columns there are: one for each variable and each row.
    pub fn columns(&self) -> u32
        ensures count { result ≡ length self.now.system.ranges + length self.now.system.rows }
        ensures well_formed { IsWellFormed self.now.system }
    {
        self.system.vars() + self.system.rows()
    }

    /// How many more changes there is room for.
    pub fn spare(&self) -> u32
        ensures count { result + length self.now.changes ≡ self.now.room }
    {
        self.room - self.changes.len() as u32
    }

    /// Puts a literal to the bounds, as one change, whether it tightens a bound or not. False
    /// exactly where the term's bounds then contradict each other; the change is made all the same.
    /// It takes no memory.
    pub fn assert_bound(&mut self, lit: &Lit) -> bool
        requires spare { length self.old.changes < self.old.room }
        requires exists { Exists (length self.old.system.ranges)
            (length self.old.system.rows) lit.now.term }
        ensures changes { self.new
            ≡ record self.old { changes = self.old.changes ++ lit.now ∷ [] } }
        ensures answer { (result ≡ false)
            ↔ Contradict (in_force self.new lit.now.term Side.Ge)
            (in_force self.new lit.now.term Side.Le) }
    {
        let lit = *lit;
        self.put(lit);
        let (low, high) = (self.low(lit.term), self.high(lit.term));
        !contradict(low, high)
    }

    // Adds the literal as one change.
    fn put(&mut self, lit: Lit)
        requires spare { length self.old.changes < self.old.room }
        requires exists { Exists (length self.old.system.ranges)
            (length self.old.system.rows) lit.term }
        ensures { self.new ≡ record self.old { changes = self.old.changes ++ lit ∷ [] } }
    {
        let place = place_of(self.system.vars(), lit.term, lit.side);
        let before = self.ends[place];
        self.changes.push_reserved(Change { lit, before });
        self.ends[place] = tightened(lit.side, before, lit.bound);
    }

    /// The number of changes in force.
    pub fn mark(&self) -> Mark
        ensures { result.changes ≡ length self.now.changes }
    {
        Mark {
            changes: self.changes.len() as u32,
        }
    }

    /// Keeps just the first changes, as many as there were at the mark. It takes no memory.
    pub fn back_to(&mut self, mark: Mark)
        requires { mark.changes ≤ length self.old.changes }
        ensures { self.new ≡ record self.old { changes = take mark.changes self.old.changes } }
    {
        while self.mark().changes > mark.changes {
            self.undo();
        }
    }

    // Gives the last change back.
    fn undo(&mut self)
        requires { 0 < length self.old.changes }
        ensures { self.new
            ≡ record self.old { changes = take (length self.old.changes - 1) self.old.changes } }
    {
        if let Some(Change { lit, before }) = self.changes.pop() {
            let place = place_of(self.system.vars(), lit.term, lit.side);
            self.ends[place] = before;
        }
    }

    /// The term of a column.
    pub fn term_at(&self, column: u32) -> Term
        requires { column < length self.now.system.ranges + length self.now.system.rows }
        ensures term { result ≡ term_of (length self.now.system.ranges) column }
        ensures well_formed { IsWellFormed self.now.system }
        ensures exists { Exists (length self.now.system.ranges)
            (length self.now.system.rows) result }
    {
        let vars = self.system.vars();
        if column < vars {
            return Term::Var(column);
        }
        Term::Row(column - vars)
    }

    /// The bound in force on a side, `None` where the term has none there.
    pub fn end(&self, term: Term, side: Side) -> Option<i128>
        requires { Exists (length self.now.system.ranges) (length self.now.system.rows) term }
        ensures { result ≡ in_force self.now term side }
    {
        self.ends[place_of(self.system.vars(), term, side)]
    }

    /// The lower bound in force, `None` where the term has none.
    pub fn low(&self, term: Term) -> Option<i128>
        requires { Exists (length self.now.system.ranges) (length self.now.system.rows) term }
        ensures { result ≡ in_force self.now term Side.Ge }
    {
        self.ends[place_of(self.system.vars(), term, Side::Ge)]
    }

    /// The upper bound in force, `None` where the term has none.
    pub fn high(&self, term: Term) -> Option<i128>
        requires { Exists (length self.now.system.ranges) (length self.now.system.rows) term }
        ensures { result ≡ in_force self.now term Side.Le }
    {
        self.ends[place_of(self.system.vars(), term, Side::Le)]
    }
}

// Adds the bounds of one column.
fn push_pair(
    ends: &mut Vec<Option<i128>>,
    low: Option<i128>,
    high: Option<i128>,
) -> Result<(), NoMemory>
    ensures { OnOk result (ends.new.items ≡ ends.old.items ++ low ∷ high ∷ []) }
{
    ends.push(low)?;
    ends.push(high)?;
    Ok(())
}

// Where the bound on a term's side stands.
fn place_of(vars: u32, term: Term, side: Side) -> usize
    ensures { result ≡ place_of_side vars term side }
{
    let column = match term {
        Term::Var(var) => var as usize,
        Term::Row(row) => vars as usize + row as usize,
    };
    match side {
        Side::Ge => 2 * column,
        Side::Le => 2 * column + 1,
    }
}

// The tighter one of the bound and the one before, where there is one.
fn tightened(side: Side, before: Option<i128>, bound: i128) -> Option<i128>
    ensures { result ≡ tighter_end side before bound }
{
    let Some(end) = before else {
        return Some(bound);
    };
    let is_tighter = match side {
        Side::Le => bound < end,
        Side::Ge => end < bound,
    };
    if is_tighter { Some(bound) } else { Some(end) }
}

// Whether the lower bound is above the upper one.
fn contradict(low: Option<i128>, high: Option<i128>) -> bool
    ensures { IsTrue result ↔ Contradict low high }
{
    match (low, high) {
        (Some(low), Some(high)) => high < low,
        _ => false,
    }
}
