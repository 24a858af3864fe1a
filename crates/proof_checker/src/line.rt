ghost use Rattle.std.specs.Prelude.{◌≡◌, length, IfOk, OnOk, if◌then◌else◌};
ghost use Rattle.proof_checker.specs.declared.verdict.Reason.TheVariants as reason;
ghost use Rattle.leaf_check.specs.Sums.{IsClear};
ghost use Rattle.proof_checker.specs.declared.base.Base.{Base as Over};
ghost use Rattle.proof_checker.specs.Place.{Place, may_stand, is_header_kind, is_shape_kind, is_goal_kind, is_node_kind, is_step_kind};
ghost use Rattle.proof_checker.specs.Outcome.{Gives};
ghost use Rattle.proof_checker.specs.Kept.{IsBase, IsKept, Comes, LineOf, TakesOnce};

use crate::Reason;
use crate::base::Base;
use crate::first_lines::{at_goal, at_header, at_shape};
use crate::kept::{Found, Kept};
use crate::nodes::at_node;
use crate::steps::at_step;
use leaf_check::Sums;
use proof_text::{Kind, Line, LineRead, read};
use wx_base::NoMemory;

// What a line comes to, behind those that came to what is kept.
pub(crate) fn after_line(
    base: &Base,
    sums: &mut Sums,
    kept: Kept,
    line: &[u8],
) -> Result<Found, NoMemory>
    requires sound { IsBase base.now }
    requires kept { (at : Place) × IsKept base.now kept at }
    requires clear { IsClear (length base.now.system.now.ranges) sums.old }
    ensures gives { IfOk result (λ found. (at : Place) → IsKept base.now kept at →
        Comes base.now (Gives base.now.system.now base.now.cost at line.now) found) }
    ensures clear { OnOk result (IsClear (length base.now.system.now.ranges) sums.new) }
{
    let said = read(base.alloc, line)?;
    match said {
        LineRead::Malformed => return Ok(Found::Failed(Reason::BadText)),
        LineRead::Unfit(kind) => return Ok(Found::Failed(unfit(&kept, kind))),
        LineRead::Fits(line) => return placed(base, sums, kept, line),
    }
}

// Why a line of that kind fails that has a number out of its range.
fn unfit(kept: &Kept, kind: Kind) -> Reason
    ensures { (base : Over) (at : Place) → IsKept base kept.now at →
        result ≡ (if may_stand at kind then reason.OutOfRange else reason.BadText) }
{
    if stands(kept, kind) {
        Reason::OutOfRange
    } else {
        Reason::BadText
    }
}

// Whether a line of that kind may stand there.
fn stands(kept: &Kept, kind: Kind) -> bool
    ensures { (base : Over) (at : Place) → IsKept base kept.now at → result ≡ may_stand at kind }
{
    match kept {
        Kept::Header => is_header(kind),
        Kept::Shape => is_shape(kind),
        Kept::Goal => is_goal(kind),
        Kept::Step(levels) => is_step(levels.has_ended(), kind),
        Kept::Tree(_) => is_node(kind),
        Kept::End(_) => false,
    }
}

fn is_header(kind: Kind) -> bool
    ensures { result ≡ is_header_kind kind }
{
    matches!(kind, Kind::Header)
}

fn is_shape(kind: Kind) -> bool
    ensures { result ≡ is_shape_kind kind }
{
    matches!(kind, Kind::Shape)
}

fn is_goal(kind: Kind) -> bool
    ensures { result ≡ is_goal_kind kind }
{
    matches!(kind, Kind::Goal)
}

fn is_node(kind: Kind) -> bool
    ensures { result ≡ is_node_kind kind }
{
    matches!(kind, Kind::Split | Kind::Leaf)
}

fn is_step(ended: bool, kind: Kind) -> bool
    ensures { result ≡ is_step_kind ended kind }
{
    match kind {
        Kind::Lemma | Kind::Theory | Kind::Cut => !ended,
        Kind::End => true,
        Kind::Header | Kind::Shape | Kind::Goal | Kind::Split | Kind::Leaf => false,
    }
}

// What a line comes to that has the form of a line and its numbers in their ranges.
fn placed(base: &Base, sums: &mut Sums, kept: Kept, line: Line) -> Result<Found, NoMemory>
    requires sound { IsBase base.now }
    requires kept { (at : Place) × IsKept base.now kept at }
    requires once { TakesOnce line }
    requires clear { IsClear (length base.now.system.now.ranges) sums.old }
    ensures gives { IfOk result (λ found. (at : Place) → IsKept base.now kept at →
        Comes base.now (LineOf base.now at line) found) }
    ensures clear { OnOk result (IsClear (length base.now.system.now.ranges) sums.new) }
{
    match kept {
        Kept::Header => return Ok(at_header(base, line)),
        Kept::Shape => return Ok(at_shape(base, line)),
        Kept::Goal => return at_goal(base, line),
        Kept::Step(levels) => return at_step(base, levels, line),
        Kept::Tree(theory) => return at_node(base, sums, theory, line),
        Kept::End(_) => return Ok(Found::Failed(Reason::BadText)),
    }
}
