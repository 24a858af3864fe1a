ghost use Rattle.std.specs.Prelude.{◌≡◌, ◌<◌, ℕ, map, IfOk};
ghost use Rattle.wx_base.specs.Args.{AreArguments};
ghost use Rattle.ll_verifier.specs.Rules.{Rules};
ghost use Rattle.ir_runs.specs.Costs.{Reached};
ghost use Rattle.ir_runs.specs.Walk as walks;
ghost use Rattle.sound_costs.specs.Costs.{AreCostsOf, costs_by_label};
ghost use Rattle.wcet_core.specs.Steps.{SaysOfTrial};
ghost use Rattle.wcet_core.specs.Worst as spec;
ghost use Rattle.wcet_core.specs.Worst.{IsRun};

use crate::ended::{Ended, run_on};
use crate::machine::FuncMachine;
use crate::try_all;
use ir_runs::each_list_ends_once;
use ll_tree::Param;
use ll_verifier::Sound;
use sound_costs::Costs;
use std::alloc::Global;
use witness_report::{Answer, How, Witness};
use wx_base::{Arg, Args, NoMemory, Sequence};

/// What is answered of a trial of all arguments, where they have so many bits at most.
pub(crate) fn worst(
    alloc: Global,
    most: u32,
    how: How,
    sound: &Sound,
    costs: &Costs,
) -> Result<Answer, NoMemory>
    requires few { most < 32 }
    requires costs { AreCostsOf sound.now.func costs.now }
    ensures { let by_label = costs_by_label sound.now.func costs.now in
        IfOk result (SaysOfTrial sound.now.func by_label most how) }
{
    each_list_ends_once();
    let bits = sound.bits();
    if bits > most {
        return Ok(Answer::TooWide { bits });
    }
    let params = sound.func().params.items();
    let widths = widths_of(alloc, params)?;
    let mut machine = FuncMachine::new(alloc, sound, costs)?;
    let Some(best) = try_all(alloc, &mut machine, &widths)? else {
        return Ok(Answer::NoRun { how });
    };
    let args = args_of(alloc, params, best.args.items())?;
    let witness = witness(alloc, args, sound, costs)?;
    let portions = Sequence::new(alloc);
    Ok(Answer::Exact {
        witness,
        how,
        portions,
    })
}

fn widths_of(alloc: Global, params: &[Param]) -> Result<Vec<u32>, NoMemory>
    ensures { IfOk result (λ widths. widths.items ≡ map (λ param. param.width) params.now) }
{
    Ok(params.iter().map(|param| param.width).collect(alloc)?)
}

// The arguments of these numbers.
fn args_of(alloc: Global, params: &[Param], numbers: &[u32]) -> Result<Args, NoMemory>
    requires { AreArguments (map (λ param. param.width) params.now) numbers.now }
    ensures numbers { IfOk result (λ args. spec.numbers_of args ≡ numbers.now) }
    ensures widths { IfOk result (λ args.
        map (λ arg. arg.width) args ≡ map (λ param. param.width) params.now) }
{
    let mut args = Sequence::new(alloc);
    for (at, param) in params.iter().enumerate() {
        args.push(Arg {
            width: param.width,
            value: numbers[at],
        })?;
    }
    Ok(args)
}

// The run on arguments that have one.
fn witness(alloc: Global, args: Args, sound: &Sound, costs: &Costs) -> Result<Witness, NoMemory>
    requires rules { Rules sound.now.func }
    requires costs { AreCostsOf sound.now.func costs.now }
    requires widths { map (λ arg. arg.width) args ≡ walks.widths_of sound.now.func }
    requires reached { (n : ℕ) × Reached sound.now.func
        (costs_by_label sound.now.func costs.now) n (spec.numbers_of args) }
    ensures args { IfOk result (λ witness. witness.args ≡ args) }
    ensures run { let by_label = costs_by_label sound.now.func costs.now in
        IfOk result (IsRun sound.now.func by_label) }
{
    each_list_ends_once();
    match run_on(alloc, args, sound, costs)? {
        Ended::Ran(witness) => Ok(witness),
        Ended::Stuck { .. } => unreachable!(),
    }
}
