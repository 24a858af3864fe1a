ghost use Rattle.std.specs.Prelude.{◌≡◌, ◌+◌, ◌^◌, ◌<◌, ◌≤◌, ℕ, List, [], length, take, All, IsTrue, IsSomeAnd, IfOk, OnOk};
ghost use Rattle.mix_system.specs.declared.literal.Lit.{Lit as Literal};
ghost use Rattle.mix_system.specs.Lit.{IsWithin};
ghost use Rattle.mix_system.specs.System.{Exists};
ghost use Rattle.mix_system.specs.Bounds.{IsIn};
ghost use Rattle.mix_system.specs.Calm.{IsCalm};
ghost use Rattle.mix_system.specs.Tally.{halving_depth as depth_of};
ghost use Rattle.bounded_simplex.specs.Refutation.{box_of};
ghost use Rattle.trail_bounds.specs.TrailBounds.{IsCounted, AreBoundsOf, HasRoom};

use crate::depth::halving_depth;
use bounded_simplex::{Mark, Simplex};
use mix_system::{Lit, Side, System};
use std::alloc::Global;
use wx_base::NoMemory;

/// A simplex, and which literals of a trail are among its bounds: of those of level 0 the tightest,
/// and behind them the others in order, as far as they were put.
#[derive(Debug, Drop)]
pub struct TrailBounds<'a> {
    pub system: &'a System,
    pub simplex: Simplex<'a>,
    /// How often the ranges can be halved.
    pub depth: u64,
    /// How many literals of the trail stand on level 0.
    pub ground: u32,
    /// How many changes these made.
    pub base: u32,
    /// How many of those behind them are among the bounds.
    pub put: u32,
}

impl<'a> TrailBounds<'a> {
    /// The simplex of a calm system with no literal put.
    pub fn new(alloc: Global, system: &'a System) -> Result<TrailBounds<'a>, NoMemory>
        requires { IsCalm system.now }
        ensures { IfOk result (λ it. (lits : List Literal) → AreBoundsOf system.entry.now lits it) }
    {
        let depth = halving_depth(system);
        let simplex = Simplex::new(alloc, system, first_room(system, depth))?;
        Ok(TrailBounds {
            system,
            simplex,
            depth,
            ground: 0,
            base: 0,
            put: 0,
        })
    }

    /// Gives back the literals of a trail behind so many. It takes no memory.
    pub fn give_back(&mut self, count: u32)
        requires counted { IsCounted self.old }
        requires ground { self.old.ground ≤ count }
        ensures system { self.new.system ≡ self.old.system }
        ensures ground { self.new.ground ≡ self.old.ground }
        ensures bounds { (lits : List Literal) → AreBoundsOf self.old.system.now lits self.old
            → count ≤ length lits → AreBoundsOf self.old.system.now (take count lits) self.new }
    {
        let kept = count - self.ground;
        if kept >= self.put {
            return;
        }
        let changes = self.simplex.mark().changes - (self.put - kept);
        self.simplex.back_to(Mark { changes });
        self.put = kept;
    }

    /// Puts the literals of a trail that aren't put yet; so many stand on level 0. There is room
    /// then for as many changes as the ranges can be halved.
    pub fn hand(&mut self, alloc: Global, trail: &[Lit], ground: u32) -> Result<(), NoMemory>
        requires bounds { AreBoundsOf self.old.system.now trail.now self.old }
        requires terms { All (λ lit. Exists (length self.old.system.now.ranges)
            (length self.old.system.now.rows) lit.term) trail.now }
        requires few { length trail.now < 2 ^ 32 }
        requires ground { ground ≤ length trail.now }
        ensures system { self.new.system ≡ self.old.system }
        ensures bounds { OnOk result (AreBoundsOf self.old.system.now trail.now self.new) }
        ensures ground { OnOk result (self.new.ground ≡ ground) }
        ensures all { OnOk result (self.new.ground + self.new.put ≡ length trail.now) }
        ensures room { OnOk result (HasRoom self.new) }
    {
        if self.room() < trail.len() as u128 + self.depth as u128 {
            self.widen(alloc, trail.len() as u128)?;
        }
        if ground != self.ground {
            self.settle(trail, ground);
        }
        self.put_rest(trail);
        Ok(())
    }

    // Room for more changes, and none made.
    fn widen(&mut self, alloc: Global, count: u128) -> Result<(), NoMemory>
        requires few { count < 2 ^ 32 }
        requires depth { depth_of self.old.system.now ≤ self.old.depth }
        ensures system { self.new.system ≡ self.old.system }
        ensures bounds { OnOk result ((lits : List Literal)
            → AreBoundsOf self.old.system.now lits self.new) }
        ensures room { OnOk result (count + self.new.depth ≤ self.new.simplex.bounds.room) }
    {
        let room = 2 * count + self.depth as u128;
        if room > u32::MAX as u128 {
            return Err(NoMemory);
        }
        self.simplex = Simplex::new(alloc, self.system, room as u32)?;
        self.ground = 0;
        self.base = 0;
        self.put = 0;
        Ok(())
    }

    // For how many changes there is room in all.
    fn room(&self) -> u128
        ensures { result ≡ self.now.simplex.bounds.room }
    {
        self.simplex.spare() as u128 + self.simplex.mark().changes as u128
    }

    // Puts the bounds of level 0 anew: of each side of a term the tightest alone, which stands last.
    fn settle(&mut self, trail: &[Lit], ground: u32)
        requires bounds { AreBoundsOf self.old.system.now trail.now self.old }
        requires terms { All (λ lit. Exists (length self.old.system.now.ranges)
            (length self.old.system.now.rows) lit.term) trail.now }
        requires ground { ground ≤ length trail.now }
        requires room { length trail.now + self.old.depth ≤ self.old.simplex.bounds.room }
        ensures system { self.new.system ≡ self.old.system }
        ensures depth { self.new.depth ≡ self.old.depth }
        ensures ground { self.new.ground ≡ ground }
        ensures room { self.new.simplex.bounds.room ≡ self.old.simplex.bounds.room }
        ensures bounds { AreBoundsOf self.old.system.now trail.now self.new }
    {
        self.simplex.back_to(Mark { changes: 0 });
        let mut at = ground;
        while at > 0 {
            at -= 1;
            let lit = trail[at as usize];
            if !self.is_in_force(lit) {
                self.simplex.assert_bound(&lit);
            }
        }
        self.base = self.simplex.mark().changes;
        self.ground = ground;
        self.put = 0;
    }

    // Puts the literals behind those that are put.
    fn put_rest(&mut self, trail: &[Lit])
        requires bounds { AreBoundsOf self.old.system.now trail.now self.old }
        requires terms { All (λ lit. Exists (length self.old.system.now.ranges)
            (length self.old.system.now.rows) lit.term) trail.now }
        requires few { length trail.now < 2 ^ 32 }
        requires room { length trail.now + self.old.depth ≤ self.old.simplex.bounds.room }
        ensures system { self.new.system ≡ self.old.system }
        ensures ground { self.new.ground ≡ self.old.ground }
        ensures bounds { AreBoundsOf self.old.system.now trail.now self.new }
        ensures all { self.new.ground + self.new.put ≡ length trail.now }
        ensures room { HasRoom self.new }
    {
        let start = self.ground + self.put;
        for at in start as usize..trail.len() {
            self.simplex.assert_bound(&trail[at]);
            self.put += 1;
        }
    }

    // Whether the bounds in force say a literal.
    fn is_in_force(&self, lit: Lit) -> bool
        requires { Exists (length self.now.simplex.bounds.system.ranges)
            (length self.now.simplex.bounds.system.rows) lit.term }
        ensures { IsTrue result → IsIn (box_of self.now.simplex.bounds) lit }
    {
        reaches(self.simplex.bounds.end(lit.term, lit.side), &lit)
    }
}

// Whether there is a bound that is at least as strong as a literal on its side.
fn reaches(end: Option<i128>, lit: &Lit) -> bool
    ensures { IsTrue result → IsSomeAnd end (λ e. IsWithin lit.now.side lit.now.bound e) }
{
    match (end, lit.side) {
        (None, _) => false,
        (Some(end), Side::Le) => end <= lit.bound,
        (Some(end), Side::Ge) => end >= lit.bound,
    }
}

// Room for two bounds on each term, for each literal of a clause, and for the halvings.
fn first_room(system: &System, depth: u64) -> u32 {
    let terms = system.vars() as u128 + system.rows() as u128;
    let mut room = 2 * terms + depth as u128 + 1;
    for at in 0..system.clauses() {
        room = room.saturating_add(system.clause(at).len() as u128);
    }
    room.min(u32::MAX as u128) as u32
}
