ghost use Rattle.std.specs.Prelude.{◌≡◌, IfOk};
ghost use Rattle.mix_system.specs.Lit.{negation};
ghost use Rattle.mix_system.specs.System.{IsInner};

use std::alloc::Global;
use std::default::MadeWith;
use wx_base::{Copied, NoMemory, Sequence};

/// What a literal bounds, by its number in the system. In order, variables stand before rows, and each by number.
#[derive(Clone, Copy, Debug, PartialEq, Eq, PartialOrd, Ord, Hash)]
pub enum Term {
    /// The variable of that number.
    Var(u32),
    /// The sum of the row of that number.
    Row(u32),
}

/// The side on which a bound stands.
#[derive(Clone, Copy, Debug, PartialEq, Eq, PartialOrd, Ord, Hash)]
pub enum Side {
    /// At most the bound.
    Le,
    /// At least the bound.
    Ge,
}

/// A bound on a term from one side, `term <= bound` or `term >= bound`. In order, by term, then by side, then by bound.
#[derive(Clone, Copy, Debug, PartialEq, Eq, PartialOrd, Ord, Hash)]
pub struct Lit {
    pub term: Term,
    pub side: Side,
    pub bound: i128,
}

/// A list of literals.
pub type Lits = Sequence<Lit>;

/// A list of terms.
pub type Terms = Sequence<Term>;

impl Lit {
    /// The literal that says the opposite: `t >= c + 1` for `t <= c`, and `t <= c - 1` for `t >= c`.
    /// The bound is neither the least nor the greatest `i128`.
    pub fn negation(self) -> Lit
        requires { IsInner self.bound }
        ensures { result ≡ negation self }
    {
        let (side, bound) = match self.side {
            Side::Le => (Side::Ge, self.bound + 1),
            Side::Ge => (Side::Le, self.bound - 1),
        };
        Lit {
            term: self.term,
            side,
            bound,
        }
    }
}

impl Copied for Term {
    fn copy(&self, _: Global) -> Result<Term, NoMemory> {
        Ok(*self)
    }
}

impl Copied for Lit {
    fn copy(&self, _: Global) -> Result<Lit, NoMemory> {
        Ok(*self)
    }
}

// What stands in the unused inline places of a clause.
impl MadeWith<Global> for Lit {
    fn made_with(_: Global) -> Lit {
        Lit {
            term: Term::Var(0),
            side: Side::Le,
            bound: 0,
        }
    }
}
