ghost use Rattle.std.specs.Prelude.{◌≡◌, length, All};
ghost use Rattle.mix_system.specs.System.{Exists};
ghost use Rattle.leaf_check.specs.Sums.{IsClear};
ghost use Rattle.leaf_check.specs.Combined.{IsCombined};

use crate::Sums;
use mix_system::{FarkasPart, System};
use wx_num::Excess;

/// What a combination of literals comes to.
#[derive(Clone, Copy, Debug, PartialEq, Eq)]
pub enum Combined {
    /// All variables cancel out, and the bounds add up to less than 0: it refutes every box that
    /// has its literals.
    Refutes,
    /// Some variable doesn't cancel out.
    NotZero,
    /// All variables cancel out, and the bounds add up to 0 or more.
    NotContradictory,
    /// The first step of working it from left to right that would overflow.
    TooLarge(Excess),
}

impl Sums {
    /// Works a combination, whose terms are the system's, from left to right. The sums are those of
    /// the system's variables.
    ///
    /// It takes no memory, and time in the parts that are named alone.
    pub fn combine(&mut self, system: &System, parts: &[FarkasPart]) -> Combined
        requires clear { IsClear (length system.now.ranges) self.old }
        requires terms { All (λ part. Exists (length system.now.ranges) (length system.now.rows)
            part.lit.term) parts.now }
        ensures exact { IsCombined system.now.rows parts.now result }
        ensures clear { IsClear (length system.now.ranges) self.new }
    {
        let added = self.add_all(system, parts);
        let vanishes = self.settle(system, parts);
        match added {
            Err(excess) => Combined::TooLarge(excess),
            Ok(_) if !vanishes => Combined::NotZero,
            Ok(constant) if constant < 0 => Combined::Refutes,
            Ok(_) => Combined::NotContradictory,
        }
    }
}
