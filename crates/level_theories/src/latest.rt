ghost use Rattle.std.specs.Prelude.{◌≡◌, ℕ, ◌+◌, ◌^◌, ◌<◌, ◌≤◌, List, length, All};
ghost use Rattle.std.specs.List.{HoldsAt};
ghost use Rattle.mix_system.specs.declared.literal.Lit.{Lit as Literal};
ghost use Rattle.bound_trail.specs.Trail.{Trail, BecameFalse, IsTrail};
ghost use Rattle.level_search.specs.Kept.{IsKept};
ghost use Rattle.level_theories.specs.Theory.{AreExcluded, IsBackLevel};
ghost use Rattle.level_theories.specs.Latest.{AreLatest};

use level_search::LevelSearch;
use mix_system::Lit;

/// The two greatest of some levels, each counted.
#[derive(Clone, Copy, Debug)]
pub struct Latest {
    pub first: u32,
    pub second: u32,
}

impl Latest {
    // The two greatest, with one more level: that at which one more literal became false.
    fn with(self, level: u32) -> Latest
        ensures { (trail : Trail) (lits : List Literal) (at : ℕ) → IsTrail trail
            → AreLatest trail lits at self → at < length lits
            → HoldsAt (λ lit. BecameFalse trail lit level) lits at
            → AreLatest trail lits (at + 1) result }
    {
        if level > self.first {
            return Latest {
                first: level,
                second: self.first,
            };
        }
        if level > self.second {
            return Latest {
                first: self.first,
                second: level,
            };
        }
        self
    }
}

/// The level to go back to with a false clause: below it two of its literals weren't false yet, and
/// at its end at most one isn't.
pub(crate) fn back_level(level: &LevelSearch<'_>, lits: &[Lit]) -> u32
    requires kept { IsKept level.now }
    requires few { length level.now.search.trail.levels < 2 ^ 32 }
    requires lits { AreExcluded level.now lits.now }
    ensures { IsBackLevel level.now.search lits.now result }
{
    let mut latest = Latest {
        first: 0,
        second: 0,
    };
    let _levels = level.search.levels();
    for at in 0..lits.len() {
        latest = latest.with(level.search.false_since(&lits[at]));
    }
    latest.second
}
