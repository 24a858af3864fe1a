ghost use Rattle.std.specs.Prelude.{◌≡◌, pos, ◌<ℤ◌, ◌^◌};
ghost use Rattle.proof_term.specs.Refutes.{low_half, high_half};

use bounded_simplex::Mark;
use mix_system::{Lit, Side, Term};

/// The high half of a box that was halved, which waits: how many changes of bounds were in force
/// before, and the number at which a variable's range was halved.
#[derive(Clone, Copy, Debug)]
pub struct Half {
    pub mark: Mark,
    pub var: u32,
    pub at: i128,
}

/// The bound of the low half of a variable's range, `var <= at`.
pub(crate) fn low_bound(var: u32, at: i128) -> Lit
    ensures { result ≡ low_half var at }
{
    Lit {
        term: Term::Var(var),
        side: Side::Le,
        bound: at,
    }
}

/// That of the high half, `var >= at + 1`.
pub(crate) fn high_bound(var: u32, at: i128) -> Lit
    requires { at <ℤ pos (2 ^ 126) }
    ensures { result ≡ high_half var at }
{
    Lit {
        term: Term::Var(var),
        side: Side::Ge,
        bound: at + 1,
    }
}
