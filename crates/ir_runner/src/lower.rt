ghost use Rattle.std.specs.Prelude.{◌≡◌, ◌+◌, ◌<◌, ◌^◌, map, length, drop, IfOk, slice_index_or};
ghost use Rattle.ll_flow.specs.Paths.{label_of};
ghost use Rattle.ll_links.specs.Links.{end_operands};
ghost use Rattle.ll_rules.specs.Items.{targets_of};
ghost use Rattle.ir_runner.specs.Code as spec;
ghost use Rattle.ir_runner.specs.Place.{IsAt};
ghost use Rattle.ir_runner.specs.declared.code.Step.TheVariants.{Give, Assume};
ghost use Rattle.ir_runner.specs.declared.code.StepOp.TheVariants.{Cast, Abs};

use crate::{BlockCode, CaseCode, Exit, Jump, Pair, PhiMove, Step, StepOp};
use ll_links::{BlockId, Links, Source, ValueId};
use ll_tree::{Block, Case, CastKind, End, Flags, Op};
use ll_verifier::Sound;
use std::alloc::Global;
use wx_base::{NoMemory, Sequence};

/// The blocks of a function with numbers in place of names.
pub fn code_of(alloc: Global, sound: &Sound) -> Result<Sequence<BlockCode>, NoMemory>
    ensures { IfOk result (λ code. code ≡ spec.code_of sound.now.func) }
{
    let mut code = Sequence::new(alloc);
    let blocks = sound.func().blocks.items();
    for (at, block) in blocks.iter().enumerate() {
        code.push(block_code(alloc, sound, BlockId(at as u32), block)?)?;
    }
    Ok(code)
}

fn block_code(
    alloc: Global,
    sound: &Sound,
    at: BlockId,
    block: &Block,
) -> Result<BlockCode, NoMemory>
    requires at { IsAt sound.now.func at.0 block.now }
    requires few { length block.now.phis + length block.now.body < 2 ^ 32 }
    ensures { IfOk result (λ code. code ≡ spec.block_code sound.now.func block.now) }
{
    let steps = steps_of(alloc, sound, at, block)?;
    let exit = exit_of(alloc, sound, at, block)?;
    Ok(BlockCode { steps, exit })
}

fn steps_of(
    alloc: Global,
    sound: &Sound,
    at: BlockId,
    block: &Block,
) -> Result<Sequence<Step>, NoMemory>
    requires at { IsAt sound.now.func at.0 block.now }
    requires few { length block.now.phis + length block.now.body < 2 ^ 32 }
    ensures { IfOk result (λ steps. steps ≡ map (spec.step_code sound.now.func) block.now.body) }
{
    let mut steps = Sequence::new(alloc);
    let first = block.phis.len() as u32;
    let body = block.body.items();
    for (item, instr) in body.iter().enumerate() {
        let links = sound.links(at, first + item as u32);
        steps.push(step_with(&instr.op, links.sources, slot_of(links.result)))?;
    }
    Ok(steps)
}

fn step_with(op: &Op, sources: &[Source], to: u32) -> Step
    ensures { result ≡ spec.step_with op.now sources.now to }
{
    match op {
        Op::Assume { .. } => assumed(sources),
        Op::Bin {
            kind,
            flags,
            width,
            ..
        } => given(StepOp::Bin(*kind, pair_of(*flags, *width, sources)), to),
        Op::Cmp {
            pred,
            flags,
            width,
            ..
        } => given(StepOp::Cmp(*pred, pair_of(*flags, *width, sources)), to),
        Op::Cast {
            kind,
            flags,
            from,
            to: wide,
            ..
        } => given(cast_of(*kind, *flags, *from, *wide, sources), to),
        Op::Select { .. } => given(select_of(sources), to),
        Op::Abs { width, strict, .. } => given(abs_of(*width, *strict, sources), to),
    }
}

fn given(op: StepOp, to: u32) -> Step
    ensures { result ≡ Give op to }
{
    Step::Give { op, to }
}

fn cast_of(kind: CastKind, flags: Flags, from: u32, to: u32, sources: &[Source]) -> StepOp
    ensures { result ≡ Cast kind flags from (spec.source_at sources.now 0) to }
{
    let arg = source_at(sources, 0);
    StepOp::Cast {
        kind,
        flags,
        from,
        arg,
        to,
    }
}

fn abs_of(width: u32, strict: bool, sources: &[Source]) -> StepOp
    ensures { result ≡ Abs width (spec.source_at sources.now 0) strict }
{
    let arg = source_at(sources, 0);
    StepOp::Abs { width, arg, strict }
}

fn select_of(sources: &[Source]) -> StepOp
    ensures { result ≡ spec.select_with sources.now }
{
    StepOp::Select {
        cond: source_at(sources, 0),
        first: source_at(sources, 1),
        second: source_at(sources, 2),
    }
}

fn assumed(sources: &[Source]) -> Step
    ensures { result ≡ Assume (spec.source_at sources.now 0) }
{
    let cond = source_at(sources, 0);
    Step::Assume { cond }
}

fn pair_of(flags: Flags, width: u32, sources: &[Source]) -> Pair
    ensures { result ≡ spec.pair_with flags width sources.now }
{
    Pair {
        flags,
        width,
        left: source_at(sources, 0),
        right: source_at(sources, 1),
    }
}

fn source_at(sources: &[Source], at: usize) -> Source
    ensures { result ≡ spec.source_at sources.now at }
{
    match sources.get(at) {
        Some(source) => *source,
        None => Source::Poison,
    }
}

// The number of a value, which every result has.
fn slot_of(id: Option<ValueId>) -> u32
    ensures { result ≡ spec.slot_of id }
{
    match id {
        Some(id) => id.0,
        None => 0,
    }
}

// What an operand stands for, which every operand does.
fn known(source: Option<Source>) -> Source
    ensures { result ≡ spec.known source }
{
    match source {
        Some(source) => source,
        None => Source::Poison,
    }
}

fn exit_of(alloc: Global, sound: &Sound, at: BlockId, block: &Block) -> Result<Exit, NoMemory>
    requires at { IsAt sound.now.func at.0 block.now }
    requires few { length block.now.phis + length block.now.body < 2 ^ 32 }
    ensures { let func = sound.now.func in
        IfOk result (λ exit. exit ≡ spec.exit_code func (label_of func at.0) block.now.end) }
{
    let func = sound.func();
    let links = end_links(sound, at, block);
    match &block.end {
        End::RetVoid => Ok(Exit::RetVoid),
        End::Ret { width, .. } => Ok(Exit::Ret {
            width: *width,
            noundef: func.ret_noundef,
            range: func.ret_range,
            value: source_at(links.sources, 0),
        }),
        End::Br { .. } => {
            let jump = jump_code(alloc, sound, at, target_at(links.blocks, 0))?;
            Ok(Exit::Br { jump })
        }
        End::CondBr { .. } => {
            let cond = source_at(links.sources, 0);
            let on_one = jump_code(alloc, sound, at, target_at(links.blocks, 0))?;
            let on_zero = jump_code(alloc, sound, at, target_at(links.blocks, 1))?;
            Ok(Exit::CondBr {
                cond,
                on_one,
                on_zero,
            })
        }
        End::Switch { cases, .. } => {
            let value = source_at(links.sources, 0);
            let default = jump_code(alloc, sound, at, target_at(links.blocks, 0))?;
            let cases = cases_of(alloc, sound, at, links.blocks, cases.items())?;
            Ok(Exit::Switch {
                value,
                default,
                cases,
            })
        }
        End::Unreachable => Ok(Exit::Unreachable),
    }
}

// What the terminator of a block names.
fn end_links<'a>(sound: &'a Sound, at: BlockId, block: &Block) -> Links<'a>
    requires at { IsAt sound.now.func at.0 block.now }
    requires few { length block.now.phis + length block.now.body < 2 ^ 32 }
    ensures sources { result.sources.now
        ≡ map (spec.source_code sound.now.func) (end_operands block.now.end) }
    ensures targets { spec.places result.blocks.now
        ≡ map (spec.target sound.now.func) (targets_of block.now.end) }
    ensures some { 0 < length sound.now.func.blocks }
{
    let items = block.phis.len() as u32 + block.body.len() as u32;
    sound.links(at, items)
}

// The block that is named there.
fn target_at(targets: &[BlockId], at: usize) -> BlockId
    ensures { result.0 ≡ slice_index_or (spec.places targets.now) at 0 }
{
    match targets.get(at) {
        Some(target) => *target,
        None => BlockId(0),
    }
}

// The cases of a switch. Its targets are the default's and behind it those of the cases.
fn cases_of(
    alloc: Global,
    sound: &Sound,
    from: BlockId,
    targets: &[BlockId],
    cases: &[Case],
) -> Result<Sequence<CaseCode>, NoMemory>
    requires from { from.0 < length sound.now.func.blocks }
    requires targets { drop 1 (spec.places targets.now)
        ≡ map (λ case. spec.target sound.now.func case.to) cases.now }
    ensures { let func = sound.now.func in
        IfOk result (λ list. list ≡ map (spec.case_code func (label_of func from.0)) cases.now) }
{
    let mut list = Sequence::new(alloc);
    for (item, case) in cases.iter().enumerate() {
        let jump = jump_code(alloc, sound, from, target_at(targets, item + 1))?;
        list.push(CaseCode {
            value: case.value,
            jump,
        })?;
    }
    Ok(list)
}

fn jump_code(alloc: Global, sound: &Sound, from: BlockId, to: BlockId) -> Result<Jump, NoMemory>
    requires from { from.0 < length sound.now.func.blocks }
    requires to { to.0 < length sound.now.func.blocks }
    ensures { let func = sound.now.func in
        IfOk result (λ jump. jump ≡ spec.jump_code func (label_of func from.0) to.0) }
{
    let mut moves = Sequence::new(alloc);
    let count = sound.func().blocks.items()[to.0 as usize].phis.len() as u32;
    for phi in 0..count {
        let source = known(sound.incoming(to, phi, from));
        let slot = slot_of(sound.links(to, phi).result);
        moves.push(PhiMove { source, to: slot })?;
    }
    Ok(Jump { to, moves })
}
