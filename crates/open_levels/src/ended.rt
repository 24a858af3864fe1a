ghost use Rattle.std.specs.Prelude.{◌≡◌, ◌≢◌, ◌<◌, ◌≤◌, ◌++◌, ◌∷◌, [], length, take, slice_index_or, MatchOption, OnOk, OnErr, All};
ghost use Rattle.std.specs.List.{AllPairs};
ghost use Rattle.open_levels.specs.Flat.{blank, IsAt, IsMarkAt, AreOrdered, AreSmaller, AreGreater, Rises};

use mix_system::Lit;
use std::alloc::Global;
use std::marker::Model;
use wx_base::NoMemory;

/// A step that has ended: its number, where its clause's literals stand in the flat list, and
/// whether it is a cut.
#[derive(Clone, Copy, Debug)]
pub struct StepMark {
    pub number: u64,
    pub from: usize,
    pub to: usize,
    pub is_cut: bool,
}

/// Steps that have ended, the oldest first, whose numbers rise. Their clauses are kept in flat
/// memory. Contracts see the list of the steps.
#[derive(Debug, Drop)]
pub struct EndedSteps {
    lits: Vec<Lit>,
    marks: Vec<StepMark>,
}

impl Model for EndedSteps {
    ghost use Rattle.std.specs.Prelude.{List, length};
    ghost use Rattle.proof_term.specs.Levels.{Finished};

    ghost Value = { List Finished };

    ghost use Rattle.open_levels.specs.Flat.{steps, AreMarks};

    ghost view = { λ it. steps it.lits.items it.marks.items };

    ghost invariant = { λ it. AreMarks (length it.lits.items) it.marks.items };
}

impl EndedSteps {
    /// No step. It takes no memory.
    pub fn new(alloc: Global) -> EndedSteps
        ensures { result ≡ [] }
    {
        EndedSteps {
            lits: Vec::new(alloc),
            marks: Vec::new(alloc),
        }
    }

    /// How many steps there are.
    pub fn len(&self) -> usize
        ensures { result ≡ length self.now }
    {
        self.marks.len()
    }

    /// The clause of a step.
    pub fn clause(&self, at: usize) -> &[Lit]
        requires { at < length self.now }
        ensures { result.now ≡ (slice_index_or self.now at blank).clause }
    {
        let mark = self.marks[at];
        &self.lits[mark.from..mark.to]
    }

    /// Whether a step is a cut.
    pub fn is_cut(&self, at: usize) -> bool
        requires { at < length self.now }
        ensures { result ≡ (slice_index_or self.now at blank).is_cut }
    {
        self.marks[at].is_cut
    }

    /// Adds a step whose number is greater than those of the others. Where memory is wanting the
    /// steps stand as before.
    pub fn push(&mut self, number: u64, clause: &[Lit], is_cut: bool) -> Result<(), NoMemory>
        requires { All (λ step. step.number < number) self.old }
        ensures ok { OnOk result (self.new ≡ self.old ++ (record {
          number = number;
          clause = clause.now;
          is_cut = is_cut;
        }) ∷ []) }
        ensures err { OnErr result (self.new ≡ self.old) }
    {
        let from = self.lits.len();
        self.lits.extend_from_slice(clause)?;
        let to = self.lits.len();
        self.marks.push(StepMark {
            number,
            from,
            to,
            is_cut,
        })?;
        Ok(())
    }

    /// Keeps so many of the oldest steps, and gives back the memory of the others' clauses.
    pub fn truncate(&mut self, count: usize)
        ensures { self.new ≡ take count self.old }
    {
        if count >= self.marks.len() {
            return;
        }
        let from = self.marks[count].from;
        self.marks.truncate(count);
        self.lits.truncate(from);
    }

    /// Where the step with that number stands, by halving. `None` exactly where there is none.
    pub fn place(&self, number: u64) -> Option<usize>
        ensures found { MatchOption result (All (λ step. step.number ≢ number) self.now)
            (IsAt self.now number) }
        ensures rising { AllPairs Rises self.now }
    {
        place_of(self.marks.as_slice(), number)
    }
}

// Where the mark with that number stands, by halving between the places that it may have: from one
// place to another the numbers rise by as much at least.
fn place_of(marks: &[StepMark], number: u64) -> Option<usize>
    requires { AreOrdered marks.now }
    ensures { MatchOption result (All (λ mark. mark.number ≢ number) marks.now)
        (IsMarkAt marks.now number) }
{
    let mut low = lowest(marks, number);
    let mut high = highest(marks, number);
    while low < high {
        let middle = low + (high - low) / 2;
        let found = marks[middle].number;
        if found == number {
            return Some(middle);
        }
        if found < number {
            low = middle + 1;
        } else {
            high = middle;
        }
    }
    None
}

// A place before which all numbers are smaller.
fn lowest(marks: &[StepMark], number: u64) -> usize
    requires { AreOrdered marks.now }
    ensures { AreSmaller marks.now number result }
{
    let count = marks.len();
    if count == 0 {
        return 0;
    }
    let behind = marks[count - 1].number.saturating_sub(number) as usize;
    (count - 1).saturating_sub(behind)
}

// A place from which on all numbers are greater.
fn highest(marks: &[StepMark], number: u64) -> usize
    requires { AreOrdered marks.now }
    ensures within { result ≤ length marks.now }
    ensures greater { AreGreater marks.now number result }
{
    let count = marks.len();
    if count == 0 {
        return 0;
    }
    let ahead = number.saturating_sub(marks[0].number) as usize;
    if ahead >= count {
        return count;
    }
    ahead + 1
}
