ghost use Rattle.std.specs.Prelude.{◌≡◌, ◌≤◌, ◌<◌, ◌^◌, [], length, zip, All, IfOk, false, vec_capacity};
ghost use Rattle.std.specs.List.{list_any};
ghost use Rattle.wx_base.specs.Args.{AreArguments};
ghost use Rattle.ll_rules.specs.Items.{values_of};
ghost use Rattle.ll_rules.specs.Limits.{count_values};
ghost use Rattle.ll_verifier.specs.Rules.{Rules};
ghost use Rattle.ir_runs.specs.Answer.{IsAnswer};
ghost use Rattle.ir_runs.specs.Walk.{has_poison_argument, is_barred, widths_of};
ghost use Rattle.ir_runner.specs.Code as spec;
ghost use Rattle.ir_runner.specs.LastRun.{labels_at, path_labels};
ghost use Rattle.ir_runner.specs.Start.{ArePlaced};

use crate::block::{Next, next_of, run_moves, run_steps};
use crate::lower::code_of;
use crate::range::{is_in_range, ranged};
use crate::{BlockCode, PathCosts};
use ir_meaning::Val;
use ir_runs::{RunEnd, UndefinedCause};
use ll_links::BlockId;
use ll_tree::{Func, Param};
use ll_verifier::Sound;
use std::alloc::Global;
use std::marker::Model;
use wx_base::{NoMemory, Sequence};

/// Runs one function again and again, by the sections on instructions of the LLVM Language Reference.
/// Contracts see it as the function and the path of its last run.
#[derive(Drop)]
pub struct Runner<'a> {
    sound: &'a Sound,
    code: Sequence<BlockCode>,
    slots: Vec<Val>,
    path: Vec<BlockId>,
}

impl<'a> Model for Runner<'a> {
    ghost use Rattle.ir_runner.specs.LastRun.{LastRun};

    ghost Value = { LastRun };

    ghost view = { λ runner. record { func = runner.sound.now.func; path = runner.path.items } };

    ghost use Rattle.ir_runner.specs.Ready.{IsReady};

    ghost invariant = { IsReady };
}

impl<'a> Runner<'a> {
    /// A runner of the function. It has no path yet.
    pub fn new(alloc: Global, sound: &'a Sound) -> Result<Runner<'a>, NoMemory>
        ensures { IfOk result (λ runner. runner ≡ record { func = sound.now.func; path = [] }) }
    {
        let code = code_of(alloc, sound)?;
        let slots = vec![in alloc; Val::Poison; count_values(sound.func())]?;
        let path = Vec::with_capacity(alloc, code.len())?;
        Ok(Runner {
            sound,
            code,
            slots,
            path,
        })
    }

    /// How the function ends on these arguments. It takes no memory.
    pub fn run<C: PathCosts>(&mut self, args: &[u32], costs: &C) -> RunEnd
        requires arguments { AreArguments (widths_of self.old.func) args.now }
        requires costs { C.func costs.now ≡ self.old.func }
        ensures answer { IsAnswer self.old.func (C.costs costs.now) args.now
            (path_labels self.new) result }
        ensures func { self.new.func ≡ self.old.func }
        ensures places { All (λ block. block.0 < length self.old.func.blocks) self.new.path }
    {
        self.path.clear();
        let func = self.sound.func();
        if is_barred(func.params.items(), args) {
            let _ = self.path.push(BlockId(0));
            return RunEnd::Undefined {
                block: 0,
                cause: UndefinedCause::PoisonArgument,
            };
        }
        walk(
            func,
            self.code.items(),
            args,
            costs,
            &mut self.slots,
            &mut self.path,
        )
    }

    /// The blocks that the last run visited, by their places in the file.
    pub fn path(&self) -> &[BlockId]
        ensures { result.now ≡ self.now.path }
    {
        &self.path
    }
}

/// How many parameters, phis and instructions there are.
pub fn count_values(func: &Func) -> usize
    requires { count_values func.now ≤ 2 ^ 32 }
    ensures { result ≡ count_values func.now }
{
    let mut count = func.params.len();
    let blocks = func.blocks.items();
    for block in blocks {
        count += block.phis.len() + block.body.len();
    }
    count
}

// Whether the argument of some strict parameter isn't in its range.
fn is_barred(params: &[Param], args: &[u32]) -> bool
    requires { length params.now ≡ length args.now }
    ensures { result ≡ list_any is_barred (zip params.now args.now) }
{
    for (at, param) in params.iter().enumerate() {
        if bars(param, args[at]) {
            return true;
        }
    }
    false
}

fn bars(param: &Param, arg: u32) -> bool
    ensures { result ≡ is_barred (param.now, arg) }
{
    param.strict && !is_in_range(param.range, arg)
}

// Puts the arguments into the first slots, each as its parameter takes it.
fn place_arguments(params: &[Param], args: &[u32], slots: &mut [Val])
    requires count { length params.now ≡ length args.now }
    requires room { length params.now ≤ length slots.old }
    ensures { ArePlaced params.now args.now slots.new }
{
    for (at, param) in params.iter().enumerate() {
        slots[at] = ranged(param.range, args[at]);
    }
}

// Runs from the entry. The path has room for every block, so no push takes memory.
fn walk<C: PathCosts>(
    func: &Func,
    code: &[BlockCode],
    args: &[u32],
    costs: &C,
    slots: &mut [Val],
    path: &mut Vec<BlockId>,
) -> RunEnd
    requires rules { Rules func.now }
    requires code { code.now ≡ spec.code_of func.now }
    requires arguments { AreArguments (widths_of func.now) args.now }
    requires taken { has_poison_argument func.now args.now ≡ false }
    requires slots { length (values_of func.now) ≤ length slots.old }
    requires room { length func.now.blocks ≤ vec_capacity path.old }
    requires empty { path.old.items ≡ [] }
    requires costs { C.func costs.now ≡ func.now }
    ensures answer { let labels = labels_at func.now path.new.items in
        IsAnswer func.now (C.costs costs.now) args.now labels result }
    ensures places { All (λ block. block.0 < length func.now.blocks) path.new.items }
    ensures room { length func.now.blocks ≤ vec_capacity path.new }
{
    place_arguments(func.params.items(), args, slots);
    let mut at = BlockId(0);
    let mut cost = u64::from(costs.block(at));
    let _ = path.push(at);
    'turn: loop {
        let block = &code[at.0 as usize];
        if !run_steps(block.steps.items(), slots) {
            let cause = UndefinedCause::FalseAssume;
            return RunEnd::Undefined { block: at.0, cause };
        }
        match next_of(&block.exit, slots) {
            Next::Returns(result) => return RunEnd::Done { result, cost },
            Next::Fails(cause) => return RunEnd::Undefined { block: at.0, cause },
            Next::To(jump) => {
                run_moves(jump.moves.items(), slots);
                cost += u64::from(costs.edge(at, jump.to)) + u64::from(costs.block(jump.to));
                at = jump.to;
                let _ = path.push(at);
            }
        }
    }
}
