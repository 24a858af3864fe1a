ghost use Rattle.std.specs.Prelude.{◌≡◌, ◌≢◌, ◌+◌, ◌*◌, ◌<◌, ◌≤◌, length, take, slice_get, slice_index_or, slice_set, Some, All, IfOk, OnOk, OnErr, MatchOption};
ghost use Rattle.mix_system.specs.System.{IsInner, Exists};
ghost use Rattle.bound_trail.specs.Trail.{box, level_end, IsOpen};
ghost use Rattle.clause_search.specs.Search.{HasGrown, Propagated};
ghost use Rattle.clause_search.specs.Settled.{IsLeftAt};
ghost use Rattle.clause_search.specs.Answers.{Says};
ghost use Rattle.clause_search.specs.Decided.{Decides};
ghost use Rattle.clause_search.specs.Passed.{IsSettledAt};
ghost use Rattle.clause_search.specs.Watched.{list_at, IsListed, AreListed, IsRight};
ghost use Rattle.clause_search.specs.Visited.{AreFalseBut, IsPartner, IsStale, Adds, Moves, IsVisiting, Goes, Visits, Works, Looks};
ghost use Rattle.std.specs.List.{HoldsAt};

use crate::Spread;
use crate::clause_trail::ClauseTrail;
use crate::pairs::Pair;
use crate::watch_lists::{WatchLists, Watcher};
use bound_trail::BoundTrail;
use mix_system::{Lit, Tally};
use std::alloc::Global;
use wx_base::NoMemory;

/// What is watched of the clauses of a search: two literals of each, in whose lists the clause is
/// found where one of them becomes false (M. W. Moskewicz, C. F. Madigan, Y. Zhao, L. Zhang and
/// S. Malik, Chaff: engineering an efficient SAT solver, 2001).
#[derive(Debug, Drop)]
pub struct Watches {
    // The watched literals, by term and side.
    pub lists: WatchLists,
    // Those of each clause that was looked at.
    pub pairs: Vec<Pair>,
    // The literals of the trail before this place were worked.
    pub head: usize,
    // From this level on nothing was missed at the end of a level.
    pub base: usize,
}

/// What a look at a watcher came to.
#[derive(Clone, Copy, Debug)]
pub enum Visit {
    /// A watcher of the clause stands where it stood.
    Kept,
    /// It went, and the last one of its list stands in its place.
    Gone,
    /// A clause is false, or the budget is spent.
    Stopped(Spread),
}

impl Watches {
    /// No clause is watched yet.
    pub fn new(alloc: Global, places: usize) -> Result<Watches, NoMemory>
        ensures lists { IfOk result (λ it. length it.lists ≡ places) }
        ensures none { IfOk result (λ it. length it.pairs.items ≡ 0) }
        ensures head { IfOk result (λ it. it.head ≡ 0) }
        ensures base { IfOk result (λ it. it.base ≡ 0) }
    {
        Ok(Watches {
            lists: WatchLists::new(alloc, places)?,
            pairs: Vec::new(alloc),
            head: 0,
            base: 0,
        })
    }

    /// Looks at the clauses that are new, and then works each literal of the trail.
    pub fn propagate(
        &mut self,
        known: &mut ClauseTrail,
        tally: &mut Tally,
    ) -> Result<Spread, NoMemory>
        requires { IsRight known.old self.old }
        ensures right { IsRight known.new self.new }
        ensures propagated { IfOk result (λ _. Propagated known.old known.new tally.old tally.new) }
        ensures says { IfOk result (λ spread. Says spread known.new tally.new) }
        ensures err { OnErr result (HasGrown known.old known.new) }
    {
        if let Some(spread) = self.look_at_new(known, tally)? {
            return Ok(spread);
        }
        while self.head < known.trail().len() {
            if let Some(spread) = self.work(known, tally)? {
                return Ok(spread);
            }
        }
        Ok(Spread::Quiet)
    }

    /// Decides a literal. Where the trail wasn't worked to its end, something may have been missed
    /// at the end of the level before.
    pub fn decide(
        &mut self,
        known: &mut ClauseTrail,
        lit: &Lit,
        tally: &mut Tally,
    ) -> Result<bool, NoMemory>
        requires right { IsRight known.old self.old }
        requires term { Exists (length known.old.trail.ranges) known.old.trail.rows lit.now.term }
        requires inner { IsInner lit.now.bound }
        requires open { IsOpen (box known.old.trail) lit.now }
        ensures right { IsRight known.new self.new }
        ensures decides { IfOk result (λ decided. Decides decided lit.now known.old known.new
            tally.old tally.new) }
        ensures err { OnErr result (known.new ≡ known.old) }
    {
        let end = known.trail().len();
        let decided = known.decide(lit, tally)?;
        if !decided {
            return Ok(false);
        }
        if self.head < end {
            self.base = known.levels().len();
        }
        Ok(true)
    }

    /// Goes back to a level. It takes no memory.
    pub fn back_to(&mut self, known: &mut ClauseTrail, level: u32)
        requires right { IsRight known.old self.old }
        requires level { level ≤ length known.old.trail.levels }
        ensures right { IsRight known.new self.new }
        ensures store { known.new.store ≡ known.old.store }
        ensures trail { known.new.trail ≡ record known.old.trail {
          lits = take (level_end known.old.trail level) known.old.trail.lits;
          levels = take level known.old.trail.levels;
        } }
    {
        known.back_to(level);
        if (level as usize) < self.base {
            self.forget(known);
            return;
        }
        let end = known.trail().len();
        if end < self.head {
            self.head = end;
        }
    }

    // Watches no clause any more: each is looked at anew.
    fn forget(&mut self, known: &ClauseTrail)
        requires { length self.old.lists ≡ 2 *
            (length known.now.trail.ranges + known.now.trail.rows) }
        ensures { IsRight known.now self.new }
    {
        self.base = known.levels().len();
        self.head = 0;
        self.pairs.clear();
        self.lists.clear();
    }

    // Looks at each clause that isn't watched yet.
    fn look_at_new(
        &mut self,
        known: &mut ClauseTrail,
        tally: &mut Tally,
    ) -> Result<Option<Spread>, NoMemory>
        requires { IsRight known.old self.old }
        ensures right { IsRight known.new self.new }
        ensures propagated { IfOk result (λ _. Propagated known.old known.new tally.old tally.new) }
        ensures looks { IfOk result (λ stop. Looks stop known.new self.new tally.new) }
        ensures err { OnErr result (HasGrown known.old known.new) }
    {
        while self.pairs.len() < known.clauses() as usize {
            let number = self.pairs.len() as u32;
            if let Some(spread) = known.settle(number, tally)? {
                return Ok(Some(spread));
            }
            self.watch(known, number)?;
        }
        Ok(None)
    }

    // Begins to watch the next clause, which asks for nothing.
    fn watch(&mut self, known: &ClauseTrail, number: u32) -> Result<(), NoMemory>
        requires right { IsRight known.now self.old }
        requires next { number ≡ length self.old.pairs.items }
        requires settled { IsSettledAt known.now number }
        ensures right { IsRight known.now self.new }
        ensures more { OnOk result (length self.new.pairs.items ≡ length self.old.pairs.items + 1) }
    {
        let clause = known.clause(number);
        let pair = known.latest_two(clause);
        list_pair(&mut self.lists, known, clause, number, pair)?;
        self.pairs.push(pair)?;
        if !known.were_left(clause, pair) {
            self.base = known.levels().len();
        }
        Ok(())
    }

    // Works the first literal of the trail that wasn't: visits the watchers on its term's other
    // side.
    fn work(
        &mut self,
        known: &mut ClauseTrail,
        tally: &mut Tally,
    ) -> Result<Option<Spread>, NoMemory>
        requires right { IsRight known.old self.old }
        requires behind { self.old.head < length known.old.trail.lits }
        ensures right { IsRight known.new self.new }
        ensures propagated { IfOk result (λ _. Propagated known.old known.new tally.old tally.new) }
        ensures count { IfOk result (λ _. length self.new.pairs.items ≡ length
            self.old.pairs.items) }
        ensures works { IfOk result (λ stop. Works stop known.new self.old self.new tally.new) }
        ensures err { OnErr result (HasGrown known.old known.new) }
    {
        let key = known.trail()[self.head].negation();
        let list = known.bounds().place(key.term, key.side);
        let mut at = 0;
        while at < self.lists.len(list) {
            match self.visit(known, &key, list, at, tally)? {
                Visit::Kept => at += 1,
                Visit::Gone => {}
                Visit::Stopped(spread) => return Ok(Some(spread)),
            }
        }
        self.head += 1;
        Ok(None)
    }

    // Looks at a watcher, and where its literal is false at its clause.
    fn visit(
        &mut self,
        known: &mut ClauseTrail,
        key: &Lit,
        list: usize,
        at: usize,
        tally: &mut Tally,
    ) -> Result<Visit, NoMemory>
        requires right { IsRight known.old self.old }
        requires visiting { IsVisiting known.old self.old key.now list at }
        requires within { at < length (list_at self.old.lists list) }
        ensures right { IsRight known.new self.new }
        ensures goes { IfOk result (λ _. Goes known.old known.new self.old self.new tally.old
            tally.new) }
        ensures visits { IfOk result (λ visit. Visits visit list at key.now known.new self.old
            self.new tally.new) }
        ensures err { OnErr result (known.new ≡ known.old) }
    {
        let watcher = self.lists.get(list, at);
        let lit = watcher.literal(key);
        if !known.is_false(&lit) {
            return Ok(Visit::Kept);
        }
        let Some(other) = self.partner(&watcher) else {
            self.lists.take(list, at);
            return Ok(Visit::Gone);
        };
        self.look(known, key, list, at, other, tally)
    }

    // Looks at the clause of a watcher whose literal is false, where this is the other watched one.
    fn look(
        &mut self,
        known: &mut ClauseTrail,
        key: &Lit,
        list: usize,
        at: usize,
        other: usize,
        tally: &mut Tally,
    ) -> Result<Visit, NoMemory>
        requires right { IsRight known.old self.old }
        requires visiting { IsVisiting known.old self.old key.now list at }
        requires within { at < length (list_at self.old.lists list) }
        requires partner { HoldsAt (λ watcher. IsPartner self.old.pairs.items watcher other)
            (list_at self.old.lists list) at }
        ensures right { IsRight known.new self.new }
        ensures goes { IfOk result (λ _. Goes known.old known.new self.old self.new tally.old
            tally.new) }
        ensures visits { IfOk result (λ visit. Visits visit list at key.now known.new self.old
            self.new tally.new) }
        ensures err { OnErr result (known.new ≡ known.old) }
    {
        let watcher = self.lists.get(list, at);
        let clause = known.clause(watcher.number);
        if known.is_true(&clause[other]) {
            return Ok(Visit::Kept);
        }
        let Some(free) = find_left(clause, other, known.bounds()) else {
            let Some(spread) = known.settle(watcher.number, tally)? else {
                return Ok(Visit::Kept);
            };
            return Ok(Visit::Stopped(spread));
        };
        let lit = clause[free];
        let target = known.bounds().place(lit.term, lit.side);
        let moved = Watcher::of(clause, watcher.number, free);
        let visit = self.move_to(list, at, target, moved, other)?;
        Ok(visit)
    }

    // The other watched literal of a watcher's clause, if its own is watched.
    fn partner(&self, watcher: &Watcher) -> Option<usize>
        ensures { MatchOption result (IsStale self.now.pairs.items watcher.now)
            (IsPartner self.now.pairs.items watcher.now) }
    {
        let Some(pair) = self.pairs.get(watcher.number as usize) else {
            return None;
        };
        pair.partner(watcher.at)
    }

    // Moves a watcher to another literal of its clause.
    fn move_to(
        &mut self,
        list: usize,
        at: usize,
        target: usize,
        watcher: Watcher,
        other: usize,
    ) -> Result<Visit, NoMemory>
        requires list { list < length self.old.lists }
        requires target { target < length self.old.lists }
        requires within { at < length (list_at self.old.lists list) }
        requires number { watcher.number < length self.old.pairs.items }
        ensures moves { IfOk result (λ visit. Moves visit list at target watcher self.old.lists
            self.new.lists) }
        ensures pairs { OnOk result (self.new.pairs.items ≡ slice_set self.old.pairs.items
            watcher.number (record { first = other; second = watcher.at })) }
        ensures lists { OnErr result (self.new.lists ≡ self.old.lists) }
        ensures same_pairs { OnErr result (self.new.pairs.items ≡ self.old.pairs.items) }
        ensures head { self.new.head ≡ self.old.head }
        ensures base { self.new.base ≡ self.old.base }
    {
        let pair = Pair {
            first: other,
            second: watcher.at,
        };
        if target == list {
            self.lists.replace(list, at, watcher);
            self.pairs[watcher.number as usize] = pair;
            return Ok(Visit::Kept);
        }
        self.lists.put(target, watcher)?;
        self.lists.take(list, at);
        self.pairs[watcher.number as usize] = pair;
        Ok(Visit::Gone)
    }
}

// Puts two literals of a clause, where they are different, into the lists of their terms and sides.
fn list_pair(
    lists: &mut WatchLists,
    known: &ClauseTrail,
    clause: &[Lit],
    number: u32,
    pair: Pair,
) -> Result<(), NoMemory>
    requires known { All (λ lit. Exists
        (length known.now.trail.ranges) known.now.trail.rows lit.term) clause.now }
    requires within { pair.first ≢ pair.second
        → (pair.first < length clause.now) × (pair.second < length clause.now) }
    requires places { length lists.old ≡ 2 *
        (length known.now.trail.ranges + known.now.trail.rows) }
    ensures adds { Adds lists.old lists.new }
    ensures listed { OnOk result (AreListed
        (length known.now.trail.ranges) lists.new number clause.now pair) }
{
    if pair.first == pair.second {
        return Ok(());
    }
    list(lists, known, clause, number, pair.first)?;
    list(lists, known, clause, number, pair.second)
}

// Puts a literal of a clause into the list of its term and side.
fn list(
    lists: &mut WatchLists,
    known: &ClauseTrail,
    clause: &[Lit],
    number: u32,
    at: usize,
) -> Result<(), NoMemory>
    requires known { All (λ lit. Exists
        (length known.now.trail.ranges) known.now.trail.rows lit.term) clause.now }
    requires within { at < length clause.now }
    requires places { length lists.old ≡ 2 *
        (length known.now.trail.ranges + known.now.trail.rows) }
    ensures adds { Adds lists.old lists.new }
    ensures listed { OnOk result (IsListed
        (length known.now.trail.ranges) lists.new number clause.now at) }
{
    let lit = clause[at];
    let target = known.bounds().place(lit.term, lit.side);
    let watcher = Watcher::of(clause, number, at);
    lists.put(target, watcher)
}

// A place of a clause but one whose literal isn't false.
fn find_left(clause: &[Lit], other: usize, trail: &BoundTrail) -> Option<usize>
    requires { All (λ lit. Exists (length trail.now.ranges) trail.now.rows lit.term) clause.now }
    ensures { MatchOption result (AreFalseBut (box trail.now) clause.now other (length clause.now))
        (λ at. (at ≢ other) × IsLeftAt (box trail.now) clause.now at) }
{
    for at in 0..clause.len() {
        if at == other {
            continue;
        }
        if !trail.is_false(&clause[at]) {
            return Some(at);
        }
    }
    None
}
