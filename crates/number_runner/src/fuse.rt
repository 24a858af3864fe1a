ghost use Rattle.std.specs.Prelude.{◌≡◌, ◌<◌, ◌+◌, ◌%◌, ◌^◌, [], ◌∷◌, length, All, IfOk, IfSome};
ghost use Rattle.number_runner.specs.Bias.{bias_of};
ghost use Rattle.number_runner.specs.Costs.{jumps_of, ways, IsBlock};
ghost use Rattle.number_runner.specs.Goes.{LeadOut};
ghost use Rattle.number_runner.specs.Stands.{compares, forks, tail_of, IsExit};
ghost use Rattle.number_runner.specs.Fuse.{IsComparison, is_signed};

use crate::lower::{mask_of, number_jump, number_steps};
use crate::{Fork, Mask, NumberBlock, NumberExit};
use ir_runner::{BlockCode, Exit, Jump, PathCosts, Step, StepOp};
use ll_links::{BlockId, Source, ValueId};
use ll_tree::Pred;
use std::alloc::Global;
use wx_base::NoMemory;

// A block that ends with the comparison of a value with a number, and the branch on it.
#[derive(Clone, Copy)]
pub(crate) struct Comparison<'a> {
    pub front: &'a [Step],
    pub pred: Pred,
    pub left: u32,
    pub number: u32,
    pub mask: Mask,
    pub to: u32,
    pub on_one: &'a Jump,
    pub on_zero: &'a Jump,
}

// The block with comparison and branch in one, where it ends so.
pub(crate) fn fused<C: PathCosts>(
    alloc: Global,
    code: &BlockCode,
    costs: &C,
    from: BlockId,
) -> Result<Option<NumberBlock>, NoMemory>
    requires from { from.0 < length (C.func costs.now).blocks }
    requires out { LeadOut (C.func costs.now) from.0 code.now.exit }
    ensures { let is = IsBlock (C.func costs.now) (C.costs costs.now) from.0 code.now in
        IfOk result (λ found. IfSome found is) }
{
    let Some(it) = comparison_of(code) else {
        return Ok(None);
    };
    let steps = number_steps(alloc, it.front)?;
    let on_one = number_jump(alloc, it.on_one, costs, from)?;
    let on_zero = number_jump(alloc, it.on_zero, costs, from)?;
    let signed = is_signed(it.pred);
    let bias = bias_of(it.mask, signed);
    let fork = Fork {
        left: it.left,
        number: it.number,
        mask: it.mask,
        signed,
        bias,
        bound: it.mask.low(u64::from(it.number) + u64::from(bias)),
        to: it.to,
        on_one,
        on_zero,
    };
    let exit = exit_with(it.pred, fork);
    Ok(Some(NumberBlock { steps, exit }))
}

fn comparison_of(code: &BlockCode) -> Option<Comparison<'_>>
    ensures { IfSome result (IsComparison code.now) }
{
    let Exit::CondBr {
        cond,
        on_one,
        on_zero,
    } = &code.exit
    else {
        return None;
    };
    let (last, front) = code.steps.items().split_last()?;
    let Step::Give {
        op: StepOp::Cmp(pred, pair),
        to,
    } = *last
    else {
        return None;
    };
    let (Source::Value(left), Source::Const(number)) = (pair.left, pair.right) else {
        return None;
    };
    if *cond != Source::Value(ValueId(to)) {
        return None;
    }
    let mask = mask_of(&pair.flags, pair.width)?;
    Some(Comparison {
        front,
        pred,
        left: left.0,
        number,
        mask,
        to,
        on_one,
        on_zero,
    })
}

fn is_signed(pred: Pred) -> bool
    ensures { result ≡ is_signed pred }
{
    matches!(pred, Pred::Sgt | Pred::Sge | Pred::Slt | Pred::Sle)
}

// By how much the numbers of a width are raised.
fn bias_of(mask: Mask, signed: bool) -> u32
    ensures { result ≡ bias_of mask.width signed }
{
    if signed { mask.half() } else { 0 }
}

fn exit_with(pred: Pred, fork: Fork) -> NumberExit
    requires { fork.signed ≡ is_signed pred }
    ensures tail { tail_of result ≡ compares pred fork }
    ensures is { IsExit (forks fork) result }
    ensures jumps { jumps_of result ≡ ways fork }
{
    match pred {
        Pred::Eq => NumberExit::Equal(fork),
        Pred::Ne => NumberExit::Differ(fork),
        Pred::Ult | Pred::Slt => NumberExit::Below(fork),
        Pred::Ule | Pred::Sle => NumberExit::AtMost(fork),
        Pred::Ugt | Pred::Sgt => NumberExit::Above(fork),
        Pred::Uge | Pred::Sge => NumberExit::AtLeast(fork),
    }
}
