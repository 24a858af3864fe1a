ghost use Rattle.std.specs.Prelude.{◌≡◌, ◌≤◌, ◌<◌, length, map, IfOk, IfSome, IsTrue, false};
ghost use Rattle.wx_base.specs.Args.{AreArguments};
ghost use Rattle.ll_rules.specs.Items.{values_of};
ghost use Rattle.ll_verifier.specs.Rules.{Rules};
ghost use Rattle.ir_meaning.specs.declared.value.Val.TheVariants.{Num};
ghost use Rattle.ir_runs.specs.Costs.{Reached};
ghost use Rattle.ir_runs.specs.Walk.{has_poison_argument, widths_of};
ghost use Rattle.ir_runner.specs.Code.{code_of};
ghost use Rattle.ir_runner.specs.Start.{ArePlaced};
ghost use Rattle.number_runner.specs.Costs.{AreBlocks};
ghost use Rattle.number_runner.specs.Numbered.{IsOf};
ghost use Rattle.number_runner.specs.Place.{AreAllIn};

use crate::NumberBlock;
use crate::block::run_steps;
use crate::leave::{Way, leave};
use crate::lower::number_code;
use ir_runner::{PathCosts, count_values, is_in_range};
use ll_links::BlockId;
use ll_tree::{Func, Param};
use ll_verifier::Sound;
use std::alloc::Global;
use std::marker::Model;
use wx_base::{NoMemory, Sequence};

/// Runs one function again and again, over numbers alone. Contracts see it as the function and its blocks.
#[derive(Drop)]
pub struct NumberRunner<'a> {
    sound: &'a Sound,
    code: Sequence<NumberBlock>,
    numbers: Vec<u32>,
}

impl<'a> Model for NumberRunner<'a> {
    ghost use Rattle.number_runner.specs.Numbered.{Numbered, IsReady};

    ghost Value = { Numbered };

    ghost view = { λ runner. record { func = runner.sound.now.func; code = runner.code } };

    ghost invariant = { IsReady };
}

impl<'a> NumberRunner<'a> {
    /// A runner of the function, with these costs.
    pub fn new<C: PathCosts>(
        alloc: Global,
        sound: &'a Sound,
        costs: &C,
    ) -> Result<NumberRunner<'a>, NoMemory>
        requires { C.func costs.now ≡ sound.now.func }
        ensures { IfOk result (IsOf sound.now.func (C.costs costs.now)) }
    {
        let code = number_code(alloc, sound, costs)?;
        let numbers = vec![in alloc; 0; count_values(sound.func())]?;
        Ok(NumberRunner {
            sound,
            code,
            numbers,
        })
    }

    /// What the run on these arguments costs. `None` where it meets poison, an assume that doesn't hold, or an end that
    /// isn't one of numbers: then there may be a run or none. It takes no memory.
    pub fn cost<C: PathCosts>(&mut self, args: &[u32], costs: &C) -> Option<u64>
        requires arguments { AreArguments (widths_of self.old.func) args.now }
        requires costs { C.func costs.now ≡ self.old.func }
        requires of { IsOf self.old.func (C.costs costs.now) self.old }
        ensures cost { IfSome result (λ n.
            Reached self.old.func (C.costs costs.now) n args.now) }
        ensures same { self.new ≡ self.old }
    {
        walk(
            self.sound.func(),
            self.code.items(),
            args,
            costs,
            &mut self.numbers,
        )
    }
}

// Puts the arguments into the first places. Answers whether each is in the range of its parameter.
fn place_arguments(params: &[Param], args: &[u32], numbers: &mut [u32]) -> bool
    requires count { length params.now ≡ length args.now }
    requires room { length params.now ≤ length numbers.old }
    ensures placed { IsTrue result → ArePlaced params.now args.now (map Num numbers.new) }
    ensures taken { IsTrue result → AreAllIn params.now args.now }
    ensures count { length numbers.new ≡ length numbers.old }
{
    for (at, param) in params.iter().enumerate() {
        if !is_in_range(param.range, args[at]) {
            return false;
        }
        numbers[at] = args[at];
    }
    true
}

// Runs from the entry, over no more blocks than there are.
fn walk<C: PathCosts>(
    func: &Func,
    code: &[NumberBlock],
    args: &[u32],
    costs: &C,
    numbers: &mut [u32],
) -> Option<u64>
    requires rules { Rules func.now }
    requires count { length code.now ≡ length func.now.blocks }
    requires blocks { AreBlocks func.now (C.costs costs.now) (code_of func.now) code.now }
    requires arguments { AreArguments (widths_of func.now) args.now }
    requires room { length (values_of func.now) ≤ length numbers.old }
    requires costs { C.func costs.now ≡ func.now }
    ensures cost { IfSome result (λ n. Reached func.now (C.costs costs.now) n args.now) }
    ensures count { length numbers.new ≡ length numbers.old }
{
    if !place_arguments(func.params.items(), args, numbers) {
        return None;
    }
    let mut at = BlockId(0);
    let mut cost = u64::from(costs.block(at));
    for count in 0..code.len() {
        let now = &code[at.0 as usize];
        if !run_steps(now.steps.items(), numbers) {
            return None;
        }
        match leave(&now.exit, numbers) {
            Way::To { to, edge, block } => {
                cost += u64::from(edge) + u64::from(block);
                at = to;
            }
            Way::Returns => return Some(cost),
            Way::Left => return None,
        }
    }
    None
}
