ghost use Rattle.std.specs.Prelude.{◌≡◌, IfOk};
ghost use Rattle.ir_runs.specs.Costs.{Reached};
ghost use Rattle.ir_runs.specs.Walk.{widths_of};
ghost use Rattle.sound_costs.specs.Costs.{AreCostsOf, costs_by_label};

use crate::Machine;
use crate::priced::Priced;
use ir_runner::Runner;
use ir_runs::{RunEnd, each_list_ends_once};
use ll_verifier::Sound;
use number_runner::NumberRunner;
use sound_costs::Costs;
use std::alloc::Global;
use std::marker::Model;
use wx_base::NoMemory;

/// A function with its costs, to be run again and again: over numbers alone, and where poison is met, over values.
/// Contracts see it as function and costs.
#[derive(Drop)]
pub(crate) struct FuncMachine<'a> {
    numbers: NumberRunner<'a>,
    runner: Runner<'a>,
    priced: Priced<'a>,
}

impl<'a> Model for FuncMachine<'a> {
    ghost use Rattle.wcet_core.specs.FuncMachine.{CostedFunc, IsReady};

    ghost Value = { CostedFunc };

    ghost view = { λ machine. machine.priced };

    ghost invariant = { λ machine. IsReady machine.runner.func machine.numbers machine.priced };
}

impl<'a> FuncMachine<'a> {
    /// The function with its costs.
    pub(crate) fn new(
        alloc: Global,
        sound: &'a Sound,
        costs: &'a Costs,
    ) -> Result<FuncMachine<'a>, NoMemory>
        requires { AreCostsOf sound.now.func costs.now }
        ensures { IfOk result (λ machine.
            machine ≡ record { func = sound.now.func; costs = costs.now }) }
    {
        let runner = Runner::new(alloc, sound)?;
        let priced = Priced::new(alloc, sound, costs)?;
        let numbers = NumberRunner::new(alloc, sound, &priced)?;
        Ok(FuncMachine {
            numbers,
            runner,
            priced,
        })
    }
}

impl<'a> Machine for FuncMachine<'a> {
    ghost widths = { λ machine. widths_of machine.func };

    ghost reaches = { λ machine args n.
        Reached machine.func (costs_by_label machine.func machine.costs) n args };

    ghost always_runs = { λ _. ⊥ };

    fn run(&mut self, args: &[u32]) -> Option<u64> {
        each_list_ends_once();
        if let Some(cost) = self.numbers.cost(args, &self.priced) {
            return Some(cost);
        }
        match self.runner.run(args, &self.priced) {
            RunEnd::Done { cost, .. } => Some(cost),
            RunEnd::Undefined { .. } => None,
        }
    }
}
