ghost use Rattle.std.specs.Prelude.{◌≡◌, length, IfOk};
ghost use Rattle.proof_text.specs.declared.line.Line.TheVariants as line_of;
ghost use Rattle.proof_checker.specs.declared.base.Base.{Base as Over};
ghost use Rattle.proof_checker.specs.Place.{AtHeader, AtShape, AtGoal};
ghost use Rattle.proof_checker.specs.Outcome.{goal_of, HeaderGives, ShapeGives, GoalGives};
ghost use Rattle.proof_checker.specs.Kept.{IsBase, Comes, LineOf};

use crate::Reason;
use crate::base::Base;
use crate::kept::{Found, Kept};
use open_levels::OpenLevels;
use proof_term::Goal;
use proof_text::{Line, Version};
use wx_base::NoMemory;

// The first line of all.
pub(crate) fn at_header(base: &Base, line: Line) -> Found
    ensures { Comes base.now (LineOf base.now AtHeader line) result }
{
    let Line::Header(version) = line else {
        return Found::Failed(Reason::BadText);
    };
    after_header(version)
}

fn after_header(version: Version) -> Found
    ensures { (base : Over) → Comes base (HeaderGives (line_of.Header version)) result }
{
    match version {
        Version::One => Found::At(Kept::Goal),
        Version::Two => Found::At(Kept::Shape),
    }
}

// The second line, where the version asks for the counts of the system.
pub(crate) fn at_shape(base: &Base, line: Line) -> Found
    ensures { Comes base.now (LineOf base.now AtShape line) result }
{
    let Line::Shape { vars, clauses } = line else {
        return Found::Failed(Reason::BadText);
    };
    after_shape(base, vars, clauses)
}

fn after_shape(base: &Base, vars: u32, clauses: u32) -> Found
    ensures { Comes base.now (ShapeGives base.now.system.now (line_of.Shape vars clauses)) result }
{
    if vars != base.system.vars() {
        return other_system(base);
    }
    if clauses != base.system.clauses() {
        return other_system(base);
    }
    Found::At(Kept::Goal)
}

fn other_system(base: &Base) -> Found
    ensures { result ≡ Found.Failed (Reason.OtherSystem (length base.now.system.now.ranges)
        (length base.now.system.now.clauses)) }
{
    Found::Failed(Reason::OtherSystem {
        vars: base.system.vars(),
        clauses: base.system.clauses(),
    })
}

// The line with the goal.
pub(crate) fn at_goal(base: &Base, line: Line) -> Result<Found, NoMemory>
    requires { IsBase base.now }
    ensures { IfOk result (Comes base.now (LineOf base.now AtGoal line)) }
{
    let Line::Goal(most) = line else {
        return Ok(Found::Failed(Reason::BadText));
    };
    after_goal(base, most)
}

fn after_goal(base: &Base, most: Option<u64>) -> Result<Found, NoMemory>
    requires { IsBase base.now }
    ensures { IfOk result (Comes base.now (GoalGives base.now.system.now (line_of.Goal most))) }
{
    let levels = OpenLevels::new(base.alloc, base.system, base.cost, goal_of(most))?;
    Ok(Found::At(Kept::Step(levels)))
}

fn goal_of(most: Option<u64>) -> Goal
    ensures { result ≡ goal_of most }
{
    match most {
        Some(most) => Goal::AtMost(most),
        None => Goal::Nothing,
    }
}
