ghost use Rattle.std.specs.Prelude.{◌≡◌, ◌<◌, ◌∷◌, [], slice_index_or, pos, ◌+ℤ◌, FitsSigned, length, IfOk, OnOk, All};
ghost use Rattle.std.specs.Int.{w128};
ghost use Rattle.mix_system.specs.Bounds.{range_bounds, unit_bounds};
ghost use Rattle.mix_system.specs.System.{Exists};
ghost use Rattle.proof_term.specs.Steps.{NamesTerm};
ghost use Rattle.proof_term.specs.Levels.{goal_bounds};
ghost use Rattle.box_check.specs.Bounds.{IsOver, StandsEverywhere, StaysHere};
ghost use Rattle.open_levels.specs.Adds.{AreFor, Adds, AddsEverywhere, Begins, both_bounds};
ghost use Rattle.open_levels.specs.Kept.{GoalFits, shared_box};

use box_check::Bounds;
use mix_system::{Lit, Side, System, Term};
use proof_term::Goal;
use std::alloc::Global;
use wx_base::NoMemory;

// The bounds that are in force on all levels before the first step, with no level open.
pub(crate) fn base_of(alloc: Global, system: &System) -> Result<Bounds, NoMemory>
    ensures sound { IfOk result (AreFor system.now) }
    ensures everywhere { IfOk result (λ bounds. StandsEverywhere bounds
        (shared_box system.now [])) }
{
    let mut bounds = Bounds::new(alloc, system.vars(), system.rows())?;
    put_ranges(&mut bounds, system)?;
    put_clauses(&mut bounds, system)?;
    Ok(bounds)
}

fn put_ranges(bounds: &mut Bounds, system: &System) -> Result<(), NoMemory>
    requires { AreFor system.now bounds.old }
    ensures adds { OnOk result (AddsEverywhere
        (range_bounds system.now.ranges) bounds.old bounds.new) }
    ensures over { OnOk result (AreFor system.now bounds.new) }
{
    for var in 0..system.vars() {
        put_range(bounds, system, var)?;
    }
    Ok(())
}

fn put_range(bounds: &mut Bounds, system: &System, var: u32) -> Result<(), NoMemory>
    requires over { AreFor system.now bounds.old }
    requires exists { var < length system.now.ranges }
    ensures adds { OnOk result (AddsEverywhere
        (both_bounds var (slice_index_or system.now.ranges var
        (pos 0, pos 0))) bounds.old bounds.new) }
    ensures over { OnOk result (AreFor system.now bounds.new) }
{
    let (low, high) = system.range(var);
    put_one_everywhere(
        bounds,
        system,
        Lit {
            term: Term::Var(var),
            side: Side::Ge,
            bound: low,
        },
    )?;
    put_one_everywhere(
        bounds,
        system,
        Lit {
            term: Term::Var(var),
            side: Side::Le,
            bound: high,
        },
    )
}

fn put_clauses(bounds: &mut Bounds, system: &System) -> Result<(), NoMemory>
    requires { AreFor system.now bounds.old }
    ensures adds { OnOk result (AddsEverywhere
        (unit_bounds system.now.clauses) bounds.old bounds.new) }
    ensures over { OnOk result (AreFor system.now bounds.new) }
{
    for at in 0..system.clauses() {
        put_unit_everywhere(bounds, system, system.clause(at))?;
    }
    Ok(())
}

// Puts the literal of a clause that has no other, on all levels.
pub(crate) fn put_unit_everywhere(
    bounds: &mut Bounds,
    system: &System,
    clause: &[Lit],
) -> Result<(), NoMemory>
    requires over { AreFor system.now bounds.old }
    requires named { All (NamesTerm system.now) clause.now }
    ensures adds { OnOk result (AddsEverywhere
        (unit_bounds (clause.now ∷ [])) bounds.old bounds.new) }
    ensures here { OnOk result (Adds (unit_bounds (clause.now ∷ [])) bounds.old bounds.new) }
    ensures over { OnOk result (AreFor system.now bounds.new) }
{
    match clause {
        [lit] => put_one_everywhere(bounds, system, *lit),
        _ => Ok(()),
    }
}

fn put_one_everywhere(bounds: &mut Bounds, system: &System, lit: Lit) -> Result<(), NoMemory>
    requires over { AreFor system.now bounds.old }
    requires named { NamesTerm system.now lit }
    ensures adds { OnOk result (AddsEverywhere (lit ∷ []) bounds.old bounds.new) }
    ensures here { OnOk result (Adds (lit ∷ []) bounds.old bounds.new) }
    ensures over { OnOk result (AreFor system.now bounds.new) }
{
    bounds.put_everywhere(lit)
}

// Opens a level with that goal within the one in work.
pub(crate) fn begin(
    bounds: &mut Bounds,
    system: &System,
    cost: Term,
    goal: Goal,
) -> Result<(), NoMemory>
    requires over { AreFor system.now bounds.old }
    requires cost { Exists (length system.now.ranges) (length system.now.rows) cost }
    requires fits { GoalFits system.now goal }
    ensures { OnOk result (Begins cost goal bounds.old bounds.new) }
{
    bounds.open()?;
    put_goal(bounds, system, cost, goal)?;
    Ok(())
}

fn put_goal(bounds: &mut Bounds, system: &System, cost: Term, goal: Goal) -> Result<(), NoMemory>
    requires over { IsOver (length system.now.ranges) (length system.now.rows) bounds.old }
    requires cost { Exists (length system.now.ranges) (length system.now.rows) cost }
    requires fits { GoalFits system.now goal }
    ensures adds { OnOk result (Adds (goal_bounds cost goal) bounds.old bounds.new) }
    ensures stays { OnOk result (StaysHere bounds.old bounds.new) }
{
    match goal {
        Goal::Nothing => Ok(()),
        Goal::AtMost(most) => put_one(bounds, system, least(cost, most as i128)),
        Goal::Below { term, bound } => put_one(bounds, system, least(term, bound)),
    }
}

// The literal that says that the term is more than the bound.
fn least(term: Term, bound: i128) -> Lit
    requires { FitsSigned w128 (bound +ℤ pos 1) }
    ensures { result ≡ record { term = term; side = Side.Ge; bound = bound +ℤ pos 1 } }
{
    Lit {
        term,
        side: Side::Ge,
        bound: bound + 1,
    }
}

// Puts the literal of a clause that has no other.
pub(crate) fn put_unit(bounds: &mut Bounds, system: &System, clause: &[Lit]) -> Result<(), NoMemory>
    requires over { IsOver (length system.now.ranges) (length system.now.rows) bounds.old }
    requires named { All (NamesTerm system.now) clause.now }
    ensures adds { OnOk result (Adds (unit_bounds (clause.now ∷ [])) bounds.old bounds.new) }
    ensures stays { OnOk result (StaysHere bounds.old bounds.new) }
{
    match clause {
        [lit] => put_one(bounds, system, *lit),
        _ => Ok(()),
    }
}

pub(crate) fn put_one(bounds: &mut Bounds, system: &System, lit: Lit) -> Result<(), NoMemory>
    requires over { IsOver (length system.now.ranges) (length system.now.rows) bounds.old }
    requires named { NamesTerm system.now lit }
    ensures adds { OnOk result (Adds (lit ∷ []) bounds.old bounds.new) }
    ensures stays { OnOk result (StaysHere bounds.old bounds.new) }
    ensures over { OnOk result (IsOver (length system.now.ranges)
        (length system.now.rows) bounds.new) }
{
    bounds.put(lit)
}
