ghost use Rattle.std.specs.Prelude.{◌≡◌, ◌+◌, ◌≤◌, ◌↔◌, false};
ghost use Rattle.std.specs.Bool.{OnTrue, OnFalse};

/// A kind of unit of work.
#[derive(Clone, Copy, Debug, PartialEq, Eq)]
pub enum Work {
    /// A literal that was decided.
    Decision,
    /// A literal that was propagated.
    Propagation,
    /// A conflict that was analysed.
    Conflict,
    /// A box that was halved.
    Split,
    /// A check of the simplex.
    Check,
}

/// How many units of each kind were counted, and how many there may be in all.
#[derive(Clone, Copy, Debug, PartialEq, Eq)]
pub struct Tally {
    pub decisions: u64,
    pub propagations: u64,
    pub conflicts: u64,
    pub splits: u64,
    pub checks: u64,
    pub budget: u64,
    pub ghost within_budget: { decisions + propagations + conflicts + splits + checks ≤ budget },
}

impl Tally {
    ghost use Rattle.mix_system.specs.Tally.{units, CountsOne};

    /// A tally that has counted nothing.
    pub fn new(budget: u64) -> Tally
        ensures nothing { units result ≡ 0 }
        ensures budget { result.budget ≡ budget }
    {
        Tally {
            decisions: 0,
            propagations: 0,
            conflicts: 0,
            splits: 0,
            checks: 0,
            budget,
        }
    }

    /// Counts one unit of a kind, or answers `false` and changes nothing, exactly where the units are at the budget.
    pub fn tick(&mut self, kind: Work) -> bool
        ensures spent { (result ≡ false) ↔ (units self.old ≡ self.old.budget) }
        ensures counted { OnTrue result (CountsOne kind self.old self.new) }
        ensures unchanged { OnFalse result (self.new ≡ self.old) }
    {
        if self.units() == self.budget {
            return false;
        }
        match kind {
            Work::Decision => self.decisions += 1,
            Work::Propagation => self.propagations += 1,
            Work::Conflict => self.conflicts += 1,
            Work::Split => self.splits += 1,
            Work::Check => self.checks += 1,
        }
        true
    }

    // How many units were counted, of all kinds.
    fn units(&self) -> u64
        ensures { result ≡ units self.now }
    {
        self.decisions + self.propagations + self.conflicts + self.splits + self.checks
    }
}
