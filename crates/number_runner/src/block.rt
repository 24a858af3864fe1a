ghost use Rattle.std.specs.Prelude.{◌≡◌, ◌<◌, length, map, Some, IsTrue};
ghost use Rattle.ir_meaning.specs.declared.value.Val.TheVariants.{Num};
ghost use Rattle.ir_runner.specs.Slots.{slot_value, IsThere, op_result, CanCompute, slots_after, CanRun, moved, CanMove};
ghost use Rattle.number_runner.specs.Steps.{step_of};

use crate::NumberStep;
use ir_meaning::{Val, abs, bin, cast, cmp, select};
use ir_runner::{PhiMove, StepOp, is_one};
use ll_links::Source;

// The value of an operand.
#[inline]
pub(crate) fn read(source: Source, numbers: &[u32]) -> Val
    requires { IsThere (map Num numbers.now) source }
    ensures { result ≡ slot_value (map Num numbers.now) source }
{
    match source {
        Source::Value(id) => Val::Num(numbers[id.0 as usize]),
        Source::Const(number) => Val::Num(number),
        Source::Poison => Val::Poison,
    }
}

// What an operation computes.
#[inline]
fn op_result(op: &StepOp, numbers: &[u32]) -> Val
    requires { CanCompute (map Num numbers.now) op.now }
    ensures { result ≡ op_result (map Num numbers.now) op.now }
{
    match *op {
        StepOp::Bin(kind, pair) => {
            let left = read(pair.left, numbers);
            let right = read(pair.right, numbers);
            bin(kind, &pair.flags, pair.width, left, right)
        }
        StepOp::Cmp(pred, pair) => {
            let left = read(pair.left, numbers);
            let right = read(pair.right, numbers);
            cmp(pred, &pair.flags, pair.width, left, right)
        }
        StepOp::Cast {
            kind,
            flags,
            from,
            arg,
            to,
        } => cast(kind, &flags, from, to, read(arg, numbers)),
        StepOp::Select {
            cond,
            first,
            second,
        } => select(
            read(cond, numbers),
            read(first, numbers),
            read(second, numbers),
        ),
        StepOp::Abs { width, arg, strict } => abs(strict, width, read(arg, numbers)),
    }
}

// Runs the instructions of a block. Answers false where one gives poison or is an assume that doesn't hold.
#[inline]
pub(crate) fn run_steps(steps: &[NumberStep], numbers: &mut [u32]) -> bool
    requires { CanRun (map step_of steps.now) (map Num numbers.old) }
    ensures ran { IsTrue result → slots_after (map step_of steps.now) (map Num numbers.old)
        ≡ Some (map Num numbers.new) }
    ensures count { length numbers.new ≡ length numbers.old }
{
    for step in steps {
        match step {
            NumberStep::Add(sum) => {
                let left = numbers[sum.left as usize];
                let right = numbers[sum.right as usize];
                numbers[sum.to as usize] = sum.mask.low(u64::from(left) + u64::from(right));
            }
            NumberStep::AddConst(sum) => {
                let left = numbers[sum.left as usize];
                numbers[sum.to as usize] = sum.mask.low(u64::from(left) + u64::from(sum.number));
            }
            NumberStep::Give { op, to } => {
                let Val::Num(number) = op_result(op, numbers) else {
                    return false;
                };
                numbers[*to as usize] = number;
            }
            NumberStep::Assume { cond } => {
                if !is_one(read(*cond, numbers)) {
                    return false;
                }
            }
        }
    }
    true
}

// Gives the phis of a block their numbers. Answers false where one is poison.
#[inline]
pub(crate) fn run_moves(moves: &[PhiMove], numbers: &mut [u32]) -> bool
    requires { CanMove moves.now (map Num numbers.old) }
    ensures moved { IsTrue result → map Num numbers.new
        ≡ moved moves.now (map Num numbers.old) }
    ensures count { length numbers.new ≡ length numbers.old }
{
    for step in moves {
        let Val::Num(number) = read(step.source, numbers) else {
            return false;
        };
        numbers[step.to as usize] = number;
    }
    true
}
