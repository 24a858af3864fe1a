ghost use Rattle.std.specs.Prelude.{◌≡◌, ◌≢◌, ℕ, ◌+◌, ◌^◌, ◌<◌, ◌≤◌, ◌↔◌, List, length, slice_index_or, All, IsTrue, MatchOption};
ghost use Rattle.std.specs.List.{HoldsAt};
ghost use Rattle.mix_system.specs.declared.literal.Lit.{Lit as Literal};
ghost use Rattle.mix_system.specs.System.{Exists};
ghost use Rattle.mix_system.specs.Bounds.{IsFalseIn};
ghost use Rattle.bound_trail.specs.Trail.{box, box_at};
ghost use Rattle.clause_search.specs.Search.{present_level};
ghost use Rattle.clause_search.specs.Settled.{IsSettled};
ghost use Rattle.clause_search.specs.Watched.{AreLeft, Stands};
ghost use Rattle.clause_search.specs.Visited.{IsOther, IsNeither, IsLatest};

use crate::clause_trail::ClauseTrail;
use mix_system::Lit;

/// The places of the two literals of a clause that are watched; one and the same where no two are.
#[derive(Clone, Copy, Debug)]
pub struct Pair {
    pub first: usize,
    pub second: usize,
}

impl Pair {
    /// The other place, where one of the two is given.
    pub fn partner(self, at: usize) -> Option<usize>
        ensures { MatchOption result (IsNeither self at) (IsOther self at) }
    {
        if self.first == self.second {
            return None;
        }
        if self.first == at {
            return Some(self.second);
        }
        if self.second == at {
            return Some(self.first);
        }
        None
    }
}

/// Two places of a clause, with how late the literals there became false.
#[derive(Clone, Copy, Debug)]
pub struct Latest {
    pub first: usize,
    pub high: u64,
    pub second: usize,
    pub low: u64,
}

impl Latest {
    // The two latest, with one more place.
    fn with(self, at: usize, falls: u64) -> Latest
        requires { falls ≤ 2 ^ 32 }
        ensures { (bounds clause : List Literal) → IsLatest bounds clause at self
            → ((falls ≡ 2 ^ 32) ↔ HoldsAt (λ lit. ¬ IsFalseIn bounds lit) clause at)
            → IsLatest bounds clause (at + 1) result }
    {
        if falls > self.high {
            return Latest {
                first: at,
                high: falls,
                second: self.first,
                low: self.high,
            };
        }
        if falls > self.low {
            return Latest {
                first: self.first,
                high: self.high,
                second: at,
                low: falls,
            };
        }
        self
    }
}

impl ClauseTrail {
    /// The two literals of a clause that became false last, or that aren't false.
    pub(crate) fn latest_two(&self, clause: &[Lit]) -> Pair
        requires { All (λ lit. Exists
            (length self.now.trail.ranges) self.now.trail.rows lit.term) clause.now }
        ensures within { result.first ≢ result.second
            → (result.first < length clause.now) × (result.second < length clause.now) }
        ensures stands { IsSettled (box self.now.trail) clause.now
            → Stands (box self.now.trail) (box self.now.trail) clause.now result }
    {
        let mut latest = Latest {
            first: 0,
            high: 0,
            second: 0,
            low: 0,
        };
        for at in 0..clause.len() {
            latest = latest.with(at, self.falls(&clause[at]));
        }
        Pair {
            first: latest.first,
            second: latest.second,
        }
    }

    // How late a literal became false: 0 by the ranges, and the greatest number where it isn't.
    fn falls(&self, lit: &Lit) -> u64
        requires { Exists (length self.now.trail.ranges) self.now.trail.rows lit.now.term }
        ensures bounded { result ≤ 2 ^ 32 }
        ensures never { (result ≡ 2 ^ 32) ↔ (¬ IsFalseIn (box self.now.trail) lit.now) }
    {
        if !self.is_false(lit) {
            return NEVER;
        }
        match self.bounds().cause(lit) {
            None => 0,
            Some(place) => place as u64 + 1,
        }
    }

    /// Whether two literals of a clause weren't false at the end of any level below the present.
    pub(crate) fn were_left(&self, clause: &[Lit], pair: Pair) -> bool
        requires known { All (λ lit. Exists
            (length self.now.trail.ranges) self.now.trail.rows lit.term) clause.now }
        requires within { pair.first ≢ pair.second
            → (pair.first < length clause.now) × (pair.second < length clause.now) }
        ensures { IsTrue result → (level : ℕ) → level < present_level self.now
            → AreLeft (box_at self.now.trail level) clause.now pair }
    {
        if pair.first == pair.second {
            return false;
        }
        if !self.was_left(&clause[pair.first]) {
            return false;
        }
        self.was_left(&clause[pair.second])
    }

    // Whether a literal wasn't false at the end of any level below the present one.
    fn was_left(&self, lit: &Lit) -> bool
        requires { Exists (length self.now.trail.ranges) self.now.trail.rows lit.now.term }
        ensures { IsTrue result → (level : ℕ) → level < present_level self.now
            → ¬ IsFalseIn (box_at self.now.trail level) lit.now }
    {
        if !self.is_false(lit) {
            return true;
        }
        let Some(place) = self.bounds().cause(lit) else {
            return false;
        };
        let levels = self.levels();
        if levels.len() == 0 {
            return true;
        }
        let start = levels[levels.len() - 1];
        if place < start {
            return false;
        }
        true
    }
}

// Later than each place of a trail.
const NEVER: u64 = 1 << 32;
