ghost use Rattle.std.specs.Prelude.{◌≡◌, ◌<◌, length, All};
ghost use Rattle.mix_system.specs.System.{Exists};
ghost use Rattle.bound_trail.specs.Trail.{box, IsTrail};
ghost use Rattle.clause_search.specs.Looks.{Tells};

use bound_trail::BoundTrail;
use mix_system::Lit;

/// How a clause stands to the bounds in force.
#[derive(Clone, Copy, Debug)]
pub enum Standing {
    /// A literal is true, or two aren't false.
    Settled,
    /// No literal is true, and all but this one are false.
    Implies(Lit),
    /// All literals are false.
    Broken,
}

/// Looks at a clause.
pub fn look_at(clause: &[Lit], trail: &BoundTrail) -> Standing
    requires { All (λ lit. Exists (length trail.now.ranges) trail.now.rows lit.term) clause.now }
    ensures { Tells result (box trail.now) clause.now }
{
    let mut left = None;
    for at in 0..clause.len() {
        if trail.is_true(&clause[at]) {
            return Standing::Settled;
        }
        if trail.is_false(&clause[at]) {
            continue;
        }
        if left.is_some() {
            return Standing::Settled;
        }
        left = Some(at);
    }
    match left {
        None => Standing::Broken,
        Some(at) => Standing::Implies(clause[at]),
    }
}
