ghost use Rattle.std.specs.Prelude.{◌≡◌, ◌<◌, ◌^◌, [], ◌∷◌, ◌++◌, map, length, All, IfOk, IfSome};
ghost use Rattle.ll_flow.specs.Paths.{label_of};
ghost use Rattle.ir_runner.specs.Code.{code_of};
ghost use Rattle.ir_runner.specs.declared.code.StepOp.TheVariants.{Bin};
ghost use Rattle.ir_runner.specs.declared.code.Step.TheVariants.{Give};
ghost use Rattle.ll_tree.specs.declared.op.BinKind.TheVariants.{Add};
ghost use Rattle.number_runner.specs.Steps.{step_of, no_flags};
ghost use Rattle.number_runner.specs.Stands.{jump_of, case_of, tail_of, IsExit};
ghost use Rattle.number_runner.specs.Costs.{jumps_of, IsPriced, IsBlock, AreBlocks};
ghost use Rattle.number_runner.specs.Goes.{LeadsOut, LeadOut};

use crate::fuse::fused;
use crate::{Mask, NumberBlock, NumberCase, NumberExit, NumberJump, NumberStep, Sum, SumConst};
use ir_runner::{BlockCode, CaseCode, Exit, Jump, Pair, PathCosts, Step, StepOp, code_of};
use ll_links::{BlockId, Source};
use ll_tree::{BinKind, Flags};
use ll_verifier::Sound;
use std::alloc::Global;
use wx_base::{NoMemory, Sequence};

/// The blocks of a function over numbers, with these costs.
pub(crate) fn number_code<C: PathCosts>(
    alloc: Global,
    sound: &Sound,
    costs: &C,
) -> Result<Sequence<NumberBlock>, NoMemory>
    requires { C.func costs.now ≡ sound.now.func }
    ensures count { IfOk result (λ blocks. length blocks ≡ length sound.now.func.blocks) }
    ensures are { let func = sound.now.func in
        IfOk result (AreBlocks func (C.costs costs.now) (code_of func)) }
{
    let code = code_of(alloc, sound)?;
    let mut blocks = Sequence::with_capacity(alloc, sound.func().blocks.len())?;
    for (at, block) in code.items().iter().enumerate() {
        blocks.push(number_block(alloc, block, costs, BlockId(at as u32))?)?;
    }
    Ok(blocks)
}

fn number_block<C: PathCosts>(
    alloc: Global,
    code: &BlockCode,
    costs: &C,
    from: BlockId,
) -> Result<NumberBlock, NoMemory>
    requires from { from.0 < length (C.func costs.now).blocks }
    requires out { LeadOut (C.func costs.now) from.0 code.now.exit }
    ensures { IfOk result (IsBlock (C.func costs.now) (C.costs costs.now) from.0 code.now) }
{
    if let Some(block) = fused(alloc, code, costs, from)? {
        return Ok(block);
    }
    let steps = number_steps(alloc, code.steps.items())?;
    let exit = number_exit(alloc, &code.exit, costs, from)?;
    Ok(NumberBlock { steps, exit })
}

pub(crate) fn number_steps(alloc: Global, steps: &[Step]) -> Result<Sequence<NumberStep>, NoMemory>
    ensures { IfOk result (λ list. map step_of list ≡ steps.now) }
{
    let mut list = Sequence::new(alloc);
    for step in steps {
        list.push(number_step(step))?;
    }
    Ok(list)
}

fn number_step(step: &Step) -> NumberStep
    ensures { step_of result ≡ step.now }
{
    match step {
        Step::Give {
            op: StepOp::Bin(BinKind::Add, pair),
            to,
        } => sum_of(pair, *to),
        Step::Give { op, to } => NumberStep::Give { op: *op, to: *to },
        Step::Assume { cond } => NumberStep::Assume { cond: *cond },
    }
}

fn sum_of(pair: &Pair, to: u32) -> NumberStep
    ensures { step_of result ≡ Give (Bin Add pair.now) to }
{
    let any = NumberStep::Give {
        op: StepOp::Bin(BinKind::Add, *pair),
        to,
    };
    let Some(mask) = mask_of(&pair.flags, pair.width) else {
        return any;
    };
    let Source::Value(left) = pair.left else {
        return any;
    };
    match pair.right {
        Source::Value(right) => NumberStep::Add(Sum {
            left: left.0,
            right: right.0,
            mask,
            to,
        }),
        Source::Const(number) => NumberStep::AddConst(SumConst {
            left: left.0,
            number,
            mask,
            to,
        }),
        Source::Poison => any,
    }
}

// The mask of a width, where there is no flag.
pub(crate) fn mask_of(flags: &Flags, width: u32) -> Option<Mask>
    ensures width { IfSome result (λ mask. mask.width ≡ width) }
    ensures flags { IfSome result (λ _. flags.now ≡ no_flags) }
{
    if flags.nuw || flags.nsw || flags.exact {
        return None;
    }
    if flags.disjoint || flags.nneg || flags.samesign {
        return None;
    }
    Mask::of(width)
}

fn number_exit<C: PathCosts>(
    alloc: Global,
    exit: &Exit,
    costs: &C,
    from: BlockId,
) -> Result<NumberExit, NoMemory>
    requires from { from.0 < length (C.func costs.now).blocks }
    requires out { LeadOut (C.func costs.now) from.0 exit.now }
    ensures tail { IfOk result (λ number. tail_of number ≡ []) }
    ensures is { IfOk result (IsExit exit.now) }
    ensures priced { let priced = IsPriced (C.func costs.now) (C.costs costs.now) from.0 in
        IfOk result (λ number. All priced (jumps_of number)) }
{
    match exit {
        Exit::RetVoid => Ok(NumberExit::Void),
        Exit::Ret {
            range: None,
            value,
            ..
        } => Ok(NumberExit::Return { value: *value }),
        Exit::Br { jump } => Ok(NumberExit::Go(number_jump(alloc, jump, costs, from)?)),
        Exit::CondBr {
            cond: Source::Value(cond),
            on_one,
            on_zero,
        } => {
            let on_one = number_jump(alloc, on_one, costs, from)?;
            let on_zero = number_jump(alloc, on_zero, costs, from)?;
            Ok(NumberExit::Branch {
                cond: cond.0,
                on_one,
                on_zero,
            })
        }
        Exit::Switch {
            value: Source::Value(value),
            default,
            cases,
        } => {
            let default = number_jump(alloc, default, costs, from)?;
            let cases = number_cases(alloc, cases.items(), costs, from)?;
            Ok(NumberExit::Switch {
                value: value.0,
                default,
                cases,
            })
        }
        _ => Ok(NumberExit::Other),
    }
}

fn number_cases<C: PathCosts>(
    alloc: Global,
    cases: &[CaseCode],
    costs: &C,
    from: BlockId,
) -> Result<Sequence<NumberCase>, NoMemory>
    requires from { from.0 < length (C.func costs.now).blocks }
    requires out { All (LeadsOut (C.func costs.now) from.0) (map (λ case. case.jump) cases.now) }
    ensures are { IfOk result (λ list. map case_of list ≡ cases.now) }
    ensures priced { let priced = IsPriced (C.func costs.now) (C.costs costs.now) from.0 in
        IfOk result (λ list. All priced (map (λ case. case.jump) list)) }
{
    let mut list = Sequence::new(alloc);
    for case in cases {
        let jump = number_jump(alloc, &case.jump, costs, from)?;
        list.push(NumberCase {
            value: case.value,
            jump,
        })?;
    }
    Ok(list)
}

pub(crate) fn number_jump<C: PathCosts>(
    alloc: Global,
    jump: &Jump,
    costs: &C,
    from: BlockId,
) -> Result<NumberJump, NoMemory>
    requires from { from.0 < length (C.func costs.now).blocks }
    requires out { LeadsOut (C.func costs.now) from.0 jump.now }
    ensures is { IfOk result (λ number. jump_of number ≡ jump.now) }
    ensures priced { let priced = IsPriced (C.func costs.now) (C.costs costs.now) from.0 in
        IfOk result priced }
{
    let mut moves = Sequence::new(alloc);
    for step in jump.moves.items() {
        moves.push(*step)?;
    }
    Ok(NumberJump {
        to: jump.to,
        moves,
        edge: costs.edge(from, jump.to),
        block: costs.block(jump.to),
    })
}
