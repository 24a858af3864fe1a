ghost use Rattle.std.specs.Prelude.{◌≡◌, Some, None, if◌then◌else◌};
ghost use Rattle.ir_meaning.specs.declared.value.Val.TheVariants.{Poison};
ghost use Rattle.ir_runs.specs.Walk.{is_one};
ghost use Rattle.ir_runner.specs.Slots.{slot_value, IsThere, op_result, CanCompute, slots_after, CanRun, moved, CanMove};
ghost use Rattle.ir_runner.specs.Leads.{CanExit, IsLed, exit_leads, give_leads, case_jump};

use crate::range::ranged_value;
use crate::{CaseCode, Exit, Jump, PhiMove, Step, StepOp};
use ir_meaning::{Val, abs, bin, cast, cmp, select};
use ir_runs::{RetVal, UndefinedCause};
use ll_links::Source;

// Where a block leads.
pub(crate) enum Next<'a> {
    To(&'a Jump),
    Returns(RetVal),
    Fails(UndefinedCause),
}

// The value of an operand.
#[inline]
fn slot_value(source: Source, slots: &[Val]) -> Val
    requires { IsThere slots.now source }
    ensures { result ≡ slot_value slots.now source }
{
    match source {
        Source::Value(id) => slots[id.0 as usize],
        Source::Const(number) => Val::Num(number),
        Source::Poison => Val::Poison,
    }
}

// What an operation computes.
#[inline]
fn op_result(op: &StepOp, slots: &[Val]) -> Val
    requires { CanCompute slots.now op.now }
    ensures { result ≡ op_result slots.now op.now }
{
    match *op {
        StepOp::Bin(kind, pair) => {
            let left = slot_value(pair.left, slots);
            let right = slot_value(pair.right, slots);
            bin(kind, &pair.flags, pair.width, left, right)
        }
        StepOp::Cmp(pred, pair) => {
            let left = slot_value(pair.left, slots);
            let right = slot_value(pair.right, slots);
            cmp(pred, &pair.flags, pair.width, left, right)
        }
        StepOp::Cast {
            kind,
            flags,
            from,
            arg,
            to,
        } => cast(kind, &flags, from, to, slot_value(arg, slots)),
        StepOp::Select {
            cond,
            first,
            second,
        } => select(
            slot_value(cond, slots),
            slot_value(first, slots),
            slot_value(second, slots),
        ),
        StepOp::Abs { width, arg, strict } => abs(strict, width, slot_value(arg, slots)),
    }
}

// Runs the instructions of a block up to the first assume that doesn't hold. Answers whether all hold.
pub(crate) fn run_steps(steps: &[Step], slots: &mut [Val]) -> bool
    requires { CanRun steps.now slots.old }
    ensures { slots_after steps.now slots.old ≡ (if result then Some slots.new else None) }
{
    for step in steps {
        match step {
            Step::Give { op, to } => slots[*to as usize] = op_result(op, slots),
            Step::Assume { cond } => {
                if is_one(slot_value(*cond, slots)) {
                    continue;
                }
                return false;
            }
        }
    }
    true
}

/// Whether a value is the number 1.
#[inline]
pub fn is_one(val: Val) -> bool
    ensures { result ≡ is_one (Some val) }
{
    match val {
        Val::Poison => false,
        Val::Num(number) => number == 1,
    }
}

// Gives the phis of a block their values. None reads another, since its operand stands before the edge.
pub(crate) fn run_moves(moves: &[PhiMove], slots: &mut [Val])
    requires { CanMove moves.now slots.old }
    ensures { slots.new ≡ moved moves.now slots.old }
{
    for step in moves {
        slots[step.to as usize] = slot_value(step.source, slots);
    }
}

// Where the terminator of a block leads.
pub(crate) fn next_of<'a>(exit: &'a Exit, slots: &[Val]) -> Next<'a>
    requires { CanExit slots.now exit.now }
    ensures { IsLed (exit_leads slots.now exit.now) result }
{
    match exit {
        Exit::RetVoid => Next::Returns(RetVal::Void),
        Exit::Ret {
            width,
            noundef,
            range,
            value,
        } => give(
            *noundef,
            *width,
            ranged_value(*range, slot_value(*value, slots)),
        ),
        Exit::Br { jump } => Next::To(jump),
        Exit::CondBr {
            cond,
            on_one,
            on_zero,
        } => match slot_value(*cond, slots) {
            Val::Poison => Next::Fails(UndefinedCause::PoisonBranch),
            Val::Num(1) => Next::To(on_one),
            Val::Num(_) => Next::To(on_zero),
        },
        Exit::Switch {
            value,
            default,
            cases,
        } => match slot_value(*value, slots) {
            Val::Poison => Next::Fails(UndefinedCause::PoisonSwitch),
            Val::Num(number) => Next::To(case_jump(number, default, cases.items())),
        },
        Exit::Unreachable => Next::Fails(UndefinedCause::Unreachable),
    }
}

// Where a return leads.
fn give<'a>(noundef: bool, width: u32, val: Val) -> Next<'a>
    ensures { IsLed (give_leads noundef width val) result }
{
    match val {
        Val::Num(value) => Next::Returns(RetVal::Num { width, value }),
        Val::Poison => give_poison(noundef, width),
    }
}

fn give_poison<'a>(noundef: bool, width: u32) -> Next<'a>
    ensures { IsLed (give_leads noundef width Poison) result }
{
    if noundef {
        Next::Fails(UndefinedCause::PoisonReturn)
    } else {
        Next::Returns(RetVal::Poison(width))
    }
}

// Where a switch leads on a number.
fn case_jump<'a>(number: u32, default: &'a Jump, cases: &'a [CaseCode]) -> &'a Jump
    ensures { result.now ≡ case_jump number default.now cases.now }
{
    for case in cases {
        if case.value == number {
            return &case.jump;
        }
    }
    default
}
