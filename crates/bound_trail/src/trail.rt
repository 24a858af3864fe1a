ghost use Rattle.std.specs.Prelude.{◌≡◌, ◌+◌, ◌*◌, ◌-◌, ◌^◌, ◌<◌, ◌≤◌, ◌↔◌, [], ◌∷◌, ◌++◌, length, take, slice_index_or, All, IsTrue, MatchOption, IfOk, OnOk, OnErr};
ghost use Rattle.mix_system.specs.System.{IsInner, Exists};
ghost use Rattle.mix_system.specs.Bounds.{IsIn, IsFalseIn, range_bounds};
ghost use Rattle.bound_trail.specs.Trail.{box, box_with, level_end, IsOpen, IsCause, IsTrail};
ghost use Rattle.bound_trail.specs.Edges.{place_of, blank_lit, edge_after};

use crate::edge::{Edge, contradicts, opposite, reaches};
use crate::made::{edges_of, ranges_of};
use mix_system::{Lit, Side, System, Term};
use std::alloc::Global;
use std::marker::Model;
use wx_base::NoMemory;

/// Literals put one after another onto the ranges of a system's variables, in levels.
///
/// Contracts see the ranges, the number of rows, the literals and the places at which the levels
/// 1, 2, .. begin.
#[derive(Debug, Drop)]
pub struct BoundTrail {
    ranges: Vec<(i128, i128)>,
    rows: u32,
    // The bound in force on each side of each term.
    edges: Vec<Edge>,
    lits: Vec<Lit>,
    // Beside each literal the bound that it replaced.
    links: Vec<Edge>,
    levels: Vec<u32>,
}

impl Model for BoundTrail {
    ghost use Rattle.bound_trail.specs.Trail.{Trail};

    ghost Value = { Trail };

    ghost use Rattle.bound_trail.specs.Stored.{lists, IsSound};

    ghost view = { lists };

    ghost invariant = { IsSound };
}

impl BoundTrail {
    /// The trail with no literal and no level, over the ranges and rows of a system.
    pub fn new(alloc: Global, system: &System) -> Result<BoundTrail, NoMemory>
        ensures { IfOk result
            (λ trail. trail ≡ record {
              ranges = system.now.ranges;
              rows = length system.now.rows;
              lits = [];
              levels = [];
            }) }
    {
        let ranges = ranges_of(alloc, system)?;
        let rows = system.rows();
        let edges = edges_of(alloc, ranges.as_slice(), rows)?;
        Ok(BoundTrail {
            ranges,
            rows,
            edges,
            lits: Vec::new(alloc),
            links: Vec::new(alloc),
            levels: Vec::new(alloc),
        })
    }

    /// The literals in order. It takes no memory.
    pub fn lits(&self) -> &[Lit]
        ensures lits { result.now ≡ self.now.lits }
        ensures trail { IsTrail self.now }
    {
        self.lits.as_slice()
    }

    /// The places at which the levels 1, 2, .. begin. It takes no memory.
    pub fn levels(&self) -> &[u32]
        ensures levels { result.now ≡ self.now.levels }
        ensures trail { IsTrail self.now }
    {
        self.levels.as_slice()
    }

    /// The place of a side of a term: below twice the number of terms, and no two are the same.
    pub fn place(&self, term: Term, side: Side) -> usize
        requires { Exists (length self.now.ranges) self.now.rows term }
        ensures place { result ≡ place_of (length self.now.ranges) term side }
        ensures within { result < 2 * (length self.now.ranges + self.now.rows) }
        ensures trail { IsTrail self.now }
    {
        let number = match term {
            Term::Var(var) => var as usize,
            Term::Row(row) => self.ranges.len() + row as usize,
        };
        match side {
            Side::Le => 2 * number,
            Side::Ge => 2 * number + 1,
        }
    }

    /// Whether a literal is true by the bounds in force. It takes no memory.
    pub fn is_true(&self, lit: &Lit) -> bool
        requires { Exists (length self.now.ranges) self.now.rows lit.now.term }
        ensures { IsTrue result ↔ IsIn (box self.now) lit.now }
    {
        let edge = self.edge(lit.term, lit.side);
        reaches(edge.bound, lit)
    }

    /// Whether a literal is false by the bounds in force. It takes no memory.
    pub fn is_false(&self, lit: &Lit) -> bool
        requires { Exists (length self.now.ranges) self.now.rows lit.now.term }
        ensures { IsTrue result ↔ IsFalseIn (box self.now) lit.now }
    {
        let edge = self.edge(lit.term, opposite(lit.side));
        contradicts(edge.bound, lit)
    }

    /// The place of the first literal of the trail that makes a false literal false, and `None`
    /// where the ranges alone do. It takes no memory.
    pub fn cause(&self, lit: &Lit) -> Option<u32>
        requires term { Exists (length self.now.ranges) self.now.rows lit.now.term }
        requires is_false { IsFalseIn (box self.now) lit.now }
        ensures { MatchOption result (IsFalseIn (range_bounds self.now.ranges) lit.now)
            (IsCause self.now lit.now) }
    {
        let mut at = self.lits.len() as u32;
        let mut edge = self.edge(lit.term, opposite(lit.side));
        while contradicts(edge.bound, lit) {
            let Some(entry) = edge.entry else {
                return None;
            };
            at = entry;
            edge = self.link(at);
        }
        Some(at)
    }

    /// Puts a literal that is open. Where memory is wanting the trail stands as before.
    pub fn push(&mut self, lit: &Lit) -> Result<(), NoMemory>
        requires term { Exists (length self.old.ranges) self.old.rows lit.now.term }
        requires inner { IsInner lit.now.bound }
        requires open { IsOpen (box self.old) lit.now }
        ensures ok { OnOk result (self.new ≡ record self.old
            { lits = self.old.lits ++ lit.now ∷ [] }) }
        ensures err { OnErr result (self.new ≡ self.old) }
        ensures trail { IsTrail self.new }
    {
        let entry = self.lits.len();
        if entry >= u32::MAX as usize {
            return Err(NoMemory);
        }
        let place = self.place(lit.term, lit.side);
        let edge = self.edges[place];
        self.links.push(edge)?;
        if self.lits.push(*lit).is_err() {
            self.links.truncate(entry);
            return Err(NoMemory);
        }
        self.edges[place] = Edge {
            bound: Some(lit.bound),
            entry: Some(entry as u32),
        };
        Ok(())
    }

    /// Begins a level with a literal that is open. Where memory is wanting the trail stands as
    /// before.
    pub fn open_level(&mut self, lit: &Lit) -> Result<(), NoMemory>
        requires term { Exists (length self.old.ranges) self.old.rows lit.now.term }
        requires inner { IsInner lit.now.bound }
        requires open { IsOpen (box self.old) lit.now }
        ensures ok { OnOk result (self.new ≡ record self.old {
          lits = self.old.lits ++ lit.now ∷ [];
          levels = self.old.levels ++ length self.old.lits ∷ [];
        }) }
        ensures err { OnErr result (self.new ≡ self.old) }
        ensures trail { IsTrail self.new }
    {
        let count = self.levels.len();
        self.begin()?;
        if self.push(lit).is_err() {
            self.levels.truncate(count);
            return Err(NoMemory);
        }
        Ok(())
    }

    /// Gives up all levels above one, and their literals. It takes no memory.
    pub fn back_to(&mut self, level: u32)
        requires { level ≤ length self.old.levels }
        ensures back { self.new ≡ record self.old {
          lits = take (level_end self.old level) self.old.lits;
          levels = take level self.old.levels;
        } }
        ensures trail { IsTrail self.new }
    {
        if (level as usize) < self.levels.len() {
            let count = self.levels[level as usize];
            self.levels.truncate(level as usize);
            self.shorten(count);
        }
    }

    // Begins a level behind the literals so far.
    fn begin(&mut self) -> Result<(), NoMemory>
        ensures ok { OnOk result (self.new ≡ record self.old
            { levels = self.old.levels ++ length self.old.lits ∷ [] }) }
        ensures err { OnErr result (self.new ≡ self.old) }
        ensures trail { IsTrail self.new }
    {
        let place = self.lits.len() as u32;
        self.levels.push(place)?;
        Ok(())
    }

    // Gives up the literals from a place on, where no level begins behind it.
    fn shorten(&mut self, count: u32)
        requires within { count ≤ length self.old.lits }
        requires levels { All (λ place. place ≤ count) self.old.levels }
        ensures cut { self.new ≡ record self.old { lits = take count self.old.lits } }
        ensures trail { IsTrail self.new }
    {
        while self.lits().len() > count as usize {
            self.drop_last();
        }
    }

    // Gives up the last literal, where no level begins behind it.
    fn drop_last(&mut self)
        requires some { 0 < length self.old.lits }
        requires levels { All (λ place. place + 1 ≤ length self.old.lits) self.old.levels }
        ensures { self.new ≡ record self.old
            { lits = take (length self.old.lits - 1) self.old.lits } }
    {
        let at = self.lits.len() - 1;
        let lit = self.lits[at];
        let place = self.place(lit.term, lit.side);
        self.edges[place] = self.links[at];
        self.lits.truncate(at);
        self.links.truncate(at);
    }

    // The bound in force on a side of a term.
    fn edge(&self, term: Term, side: Side) -> Edge
        requires { Exists (length self.now.ranges) self.now.rows term }
        ensures edge { result ≡ edge_after self.now.ranges self.now.rows self.now.lits
            (length self.now.lits) (place_of (length self.now.ranges) term side) }
        ensures trail { IsTrail self.now }
    {
        let place = self.place(term, side);
        self.edges[place]
    }

    // The bound that the literal at a place replaced.
    fn link(&self, at: u32) -> Edge
        requires { at < length self.now.lits }
        ensures edge { let lit = slice_index_or self.now.lits at blank_lit in
            result ≡ edge_after self.now.ranges self.now.rows self.now.lits at
            (place_of (length self.now.ranges) lit.term lit.side) }
        ensures trail { IsTrail self.now }
    {
        self.links[at as usize]
    }
}
