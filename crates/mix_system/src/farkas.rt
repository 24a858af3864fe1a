ghost use Rattle.std.specs.Prelude.{pos, ◌≤ℤ◌};

use crate::Lit;
use std::alloc::Global;
use wx_base::{Copied, NoMemory, Sequence};

/// A literal and how often it is taken, at least once.
#[derive(Clone, Copy, Debug)]
pub struct FarkasPart {
    pub lit: Lit,
    pub by: i128,
    pub ghost at_least_once: { pos 1 ≤ℤ by },
}

/// A list of literals, each with its multiplier.
pub type FarkasParts = Sequence<FarkasPart>;

/// A sum of literals with multipliers, which refutes them where all its variables cancel out and its bounds add up to less than 0
/// (J. Farkas, Theorie der einfachen Ungleichungen, 1902).
#[derive(Debug, Drop)]
pub struct Farkas {
    pub parts: FarkasParts,
}

impl Copied for FarkasPart {
    fn copy(&self, _: Global) -> Result<FarkasPart, NoMemory> {
        Ok(*self)
    }
}

impl Copied for Farkas {
    fn copy(&self, alloc: Global) -> Result<Farkas, NoMemory> {
        let parts = self.parts.copy(alloc)?;
        Ok(Farkas { parts })
    }
}
