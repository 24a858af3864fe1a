ghost use Rattle.std.specs.Prelude.{◌≡◌, ◌^◌, ◌<◌, ◌≤◌, List, length, IfOk};
ghost use Rattle.mix_system.specs.declared.literal.Lit.{Lit as Literal};
ghost use Rattle.mix_system.specs.System.{IsInner, Exists};
ghost use Rattle.mix_system.specs.Bounds.{IsFalseIn};
ghost use Rattle.mix_system.specs.Follows.{Follows};
ghost use Rattle.bound_trail.specs.Trail.{box, BecameFalse, IsTrail};
ghost use Rattle.clause_search.specs.Search.{known, single_bounds};
ghost use Rattle.clause_search.specs.Marks.{lit_at, AreMarks};
ghost use Rattle.clause_search.specs.Runs.{IsAim, IsReady, AreKept, IsBackLevel, IsLevelOf};

use crate::clause_trail::ClauseTrail;
use crate::marks::Mark;
use mix_system::{Hints, Lit, Lits};
use std::alloc::Global;
use wx_base::NoMemory;

impl ClauseTrail {
    /// The negations of the literals that are seen, in the order of the trail.
    pub(crate) fn kept(&self, alloc: Global, marks: &Vec<Mark>) -> Result<Lits, NoMemory>
        requires marks { AreMarks self.now marks.now.items }
        ensures { IfOk result (AreKept self.now.trail marks.now.items
            (length self.now.trail.lits)) }
    {
        let mut kept = Lits::new(alloc);
        for at in 0..marks.len() {
            let Mark::Seen = marks[at] else {
                continue;
            };
            kept.push(self.put_at(at).negation())?;
        }
        Ok(kept)
    }

    // The literal at a place of the trail.
    fn put_at(&self, at: usize) -> Lit
        requires { at < length self.now.trail.lits }
        ensures lit { result ≡ lit_at self.now.trail at }
        ensures inner { IsInner result.bound }
    {
        self.trail()[at]
    }

    /// The level of the last literal before a place that is seen, and 0 where none is.
    pub(crate) fn back_level(&self, start: u32, marks: &Vec<Mark>) -> u32
        requires marks { AreMarks self.now marks.now.items }
        requires within { start ≤ length marks.now.items }
        requires few { length self.now.trail.levels < 2 ^ 32 }
        ensures { IsBackLevel self.now.trail marks.now.items start result }
    {
        let mut at = start;
        while at > 0 {
            at -= 1;
            let Mark::Seen = marks[at as usize] else {
                continue;
            };
            return self.level_of(at);
        }
        0
    }

    /// The level at which a false literal became false.
    pub(crate) fn false_since(&self, lit: &Lit) -> u32
        requires term { Exists (length self.now.trail.ranges) self.now.trail.rows lit.now.term }
        requires is_false { IsFalseIn (box self.now.trail) lit.now }
        requires few { length self.now.trail.levels < 2 ^ 32 }
        ensures { BecameFalse self.now.trail lit.now result }
    {
        match self.bounds().cause(lit) {
            None => 0,
            Some(place) => self.level_of(place),
        }
    }

    // The level of a literal of the trail.
    fn level_of(&self, at: u32) -> u32
        requires within { at < length self.now.trail.lits }
        requires few { length self.now.trail.levels < 2 ^ 32 }
        ensures { IsLevelOf self.now.trail at result }
    {
        let levels = self.levels();
        for level in 0..levels.len() {
            if levels[level] > at {
                return level as u32;
            }
        }
        levels.len() as u32
    }

    /// The reasons of the literals before a place that were given up, in the order of the trail,
    /// and at the end one more clause.
    pub(crate) fn hints(
        &self,
        alloc: Global,
        marks: &Vec<Mark>,
        end: u32,
        last: u32,
    ) -> Result<Hints, NoMemory>
        requires marks { AreMarks self.now marks.now.items }
        requires aim { IsAim self.now end last }
        requires trail { IsTrail self.now.trail }
        ensures { IfOk result (λ hints. (lits : List Literal)
            → IsReady self.now marks.now.items lits end last →
            Follows lits hints (single_bounds self.now) (known self.now)) }
    {
        let mut hints = Hints::new(alloc);
        for at in 0..end {
            let Mark::Used(number) = marks[at as usize] else {
                continue;
            };
            hints.push(number)?;
        }
        hints.push(last)?;
        Ok(hints)
    }
}
