ghost use Rattle.std.specs.Prelude.{◌≡◌, ◌↔◌, ◌<◌, length, IsTrue, IfOk};
ghost use Rattle.mix_system.specs.Lit.{negation, other_side};
ghost use Rattle.bound_trail.specs.Reach.{Reaches};

use mix_system::{Lit, Side, Term};

/// A bound in force on one side of a term, and the literal of the trail that gave it, where it
/// isn't the variable's range.
#[derive(Clone, Copy, Debug)]
pub struct Edge {
    pub bound: Option<i128>,
    pub entry: Option<u32>,
}

/// Whether a bound in force on the literal's side is at least as strong as the literal.
pub fn reaches(bound: Option<i128>, lit: &Lit) -> bool
    ensures { IsTrue result ↔ Reaches bound lit.now }
{
    match (bound, lit.side) {
        (None, _) => false,
        (Some(bound), Side::Le) => bound <= lit.bound,
        (Some(bound), Side::Ge) => bound >= lit.bound,
    }
}

/// Whether a bound in force on the other side makes the literal false.
pub fn contradicts(bound: Option<i128>, lit: &Lit) -> bool
    ensures { IsTrue result ↔ Reaches bound (negation lit.now) }
{
    match (bound, lit.side) {
        (None, _) => false,
        (Some(bound), Side::Le) => bound > lit.bound,
        (Some(bound), Side::Ge) => bound < lit.bound,
    }
}

/// The other side.
pub fn opposite(side: Side) -> Side
    ensures { result ≡ other_side side }
{
    match side {
        Side::Le => Side::Ge,
        Side::Ge => Side::Le,
    }
}
