ghost use Rattle.std.specs.Prelude.{◌≡◌, ℕ, ◌<◌, ◌≤◌, length, All, Contains, IfOk};
ghost use Rattle.mix_system.specs.System.{Exists};
ghost use Rattle.clause_search.specs.declared.marks.Mark.TheVariants.{Clear};
ghost use Rattle.mix_system.specs.Bounds.{IsFalseIn};
ghost use Rattle.bound_trail.specs.Trail.{box};
ghost use Rattle.clause_search.specs.Marks.{mark_at, IsSeen, AreMarks, IsLowest, MarksCause, MarksCauses, Resolves, FindsPoint, ResolvesFrom};

use crate::clause_trail::ClauseTrail;
use mix_system::Lit;
use std::alloc::Global;
use wx_base::NoMemory;

/// What is known of a literal of the trail while a conflict is analysed.
#[derive(Clone, Copy, Debug)]
pub enum Mark {
    /// Nothing was asked of it.
    Clear,
    /// It makes a literal false that has to be false.
    Seen,
    /// It does too, and the clause of that number implied it.
    Used(u32),
}

impl ClauseTrail {
    /// No mark on any literal of the trail.
    pub(crate) fn no_marks(&self, alloc: Global) -> Result<Vec<Mark>, NoMemory>
        ensures marks { IfOk result (λ marks. AreMarks self.now marks.items) }
        ensures clear { IfOk result (λ marks. (at : ℕ) → mark_at marks.items at ≡ Clear) }
    {
        let count = self.trail().len();
        let marks = vec![in alloc; Mark::Clear; count]?;
        Ok(marks)
    }

    /// Goes back from the trail's end to the first literal that alone leads to the conflict on the
    /// level that begins at `start`: each literal behind it that was seen is given up for what made
    /// the other literals of its reason false.
    pub(crate) fn find_point(&self, start: u32, lowest: u32, marks: &mut Vec<Mark>) -> u32
        requires marks { AreMarks self.now marks.old.items }
        requires levels { All (λ place. place ≤ start) self.now.trail.levels }
        requires lowest { IsLowest start lowest marks.old.items }
        requires found { lowest < length marks.old.items }
        ensures { FindsPoint self.now start result marks.old.items marks.new.items }
    {
        let mut low = lowest;
        let mut at = self.trail().len() as u32;
        while at > low + 1 {
            at -= 1;
            let Mark::Seen = marks[at as usize] else {
                continue;
            };
            low = self.resolve(at, start, low, marks);
        }
        low
    }

    /// Gives up each literal below a place that was seen, where no level begins below it.
    pub(crate) fn resolve_below(&self, base: u32, marks: &mut Vec<Mark>)
        requires marks { AreMarks self.now marks.old.items }
        requires within { base ≤ length marks.old.items }
        requires levels { All (λ place. base ≤ place) self.now.trail.levels }
        ensures { ResolvesFrom self.now 0 base marks.old.items marks.new.items }
    {
        let top = self.trail().len() as u32;
        let mut at = base;
        while at > 0 {
            at -= 1;
            let Mark::Seen = marks[at as usize] else {
                continue;
            };
            self.resolve(at, top, top, marks);
        }
    }

    // Gives up a literal that a clause implied for those that made its other literals false.
    fn resolve(&self, at: u32, start: u32, lowest: u32, marks: &mut Vec<Mark>) -> u32
        requires marks { AreMarks self.now marks.old.items }
        requires within { at < length marks.old.items }
        requires implied { ¬ Contains self.now.trail.levels at }
        requires lowest { IsLowest start lowest marks.old.items }
        requires apart { ¬ (lowest ≡ at) }
        requires seen { IsSeen marks.old.items at }
        ensures resolves { Resolves self.now at start result marks.old.items marks.new.items }
        ensures falls { result ≤ lowest }
    {
        let Some(number) = self.reason(at) else {
            unreachable!()
        };
        marks[at as usize] = Mark::Used(number);
        self.mark_causes(self.clause(number), start, lowest, marks)
    }

    /// Marks what makes the false literals of a clause false. Gives the lowest place from `start`
    /// on that is seen, where `lowest` was it before.
    pub(crate) fn mark_causes(
        &self,
        clause: &[Lit],
        start: u32,
        lowest: u32,
        marks: &mut Vec<Mark>,
    ) -> u32
        requires known { All (λ lit. Exists
            (length self.now.trail.ranges) self.now.trail.rows lit.term) clause.now }
        requires one_each { length marks.old.items ≡ length self.now.trail.lits }
        requires lowest { IsLowest start lowest marks.old.items }
        ensures marks { MarksCauses self.now.trail clause.now
            (length clause.now) start result marks.old.items marks.new.items }
        ensures falls { result ≤ lowest }
    {
        let mut low = lowest;
        for at in 0..clause.len() {
            if !self.is_false(&clause[at]) {
                continue;
            }
            low = self.mark_cause(&clause[at], start, low, marks);
        }
        low
    }

    // Marks what makes a false literal false.
    fn mark_cause(&self, lit: &Lit, start: u32, lowest: u32, marks: &mut Vec<Mark>) -> u32
        requires term { Exists (length self.now.trail.ranges) self.now.trail.rows lit.now.term }
        requires is_false { IsFalseIn (box self.now.trail) lit.now }
        requires one_each { length marks.old.items ≡ length self.now.trail.lits }
        requires lowest { IsLowest start lowest marks.old.items }
        ensures marks { MarksCause self.now.trail lit.now start result marks.old.items
            marks.new.items }
        ensures falls { result ≤ lowest }
    {
        let Some(place) = self.bounds().cause(lit) else {
            return lowest;
        };
        let Mark::Clear = marks[place as usize] else {
            return lowest;
        };
        marks[place as usize] = Mark::Seen;
        if place < start {
            return lowest;
        }
        if lowest < place {
            return lowest;
        }
        place
    }
}
