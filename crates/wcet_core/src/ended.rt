ghost use Rattle.std.specs.Prelude.{◌≡◌, ◌<◌, map, length, All, IfOk};
ghost use Rattle.ir_runs.specs.Walk.{widths_of};
ghost use Rattle.ir_runner.specs.LastRun.{labels_at};
ghost use Rattle.sound_costs.specs.Costs.{AreCostsOf, costs_by_label};
ghost use Rattle.wcet_core.specs.Steps.{EndsSo};
ghost use Rattle.wcet_core.specs.Worst as spec;

use crate::priced::Priced;
use ir_runner::Runner;
use ir_runs::{RunEnd, UndefinedCause};
use ll_links::BlockId;
use ll_verifier::Sound;
use sound_costs::Costs;
use std::alloc::Global;
use witness_report::Witness;
use wx_base::{Arg, Args, Copied, Name, NoMemory, Path, Sequence};

/// How a run ended.
#[derive(Debug, Drop)]
pub(crate) enum Ended {
    Ran(Witness),
    /// What happens at the end of this block isn't defined.
    Stuck { block: Name, cause: UndefinedCause },
}

/// The run on arguments of the function.
pub(crate) fn run_on(
    alloc: Global,
    args: Args,
    sound: &Sound,
    costs: &Costs,
) -> Result<Ended, NoMemory>
    requires costs { AreCostsOf sound.now.func costs.now }
    requires widths { map (λ arg. arg.width) args ≡ widths_of sound.now.func }
    ensures { let by_label = costs_by_label sound.now.func costs.now in
        IfOk result (EndsSo sound.now.func by_label args) }
{
    let numbers = numbers_of(alloc, args.items())?;
    let priced = Priced::new(alloc, sound, costs)?;
    let mut runner = Runner::new(alloc, sound)?;
    match runner.run(&numbers, &priced) {
        RunEnd::Done { result, cost } => {
            let path = labels_at(alloc, sound, runner.path())?;
            Ok(Ended::Ran(Witness {
                args,
                path,
                result,
                cost,
            }))
        }
        RunEnd::Undefined { block, cause } => {
            let block = sound.func().blocks.items()[block as usize]
                .label
                .copy(alloc)?;
            Ok(Ended::Stuck { block, cause })
        }
    }
}

fn numbers_of(alloc: Global, args: &[Arg]) -> Result<Vec<u32>, NoMemory>
    ensures { IfOk result (λ numbers. numbers.items ≡ spec.numbers_of args.now) }
{
    Ok(args.iter().map(|arg| arg.value).collect(alloc)?)
}

// The labels of the blocks at these places.
fn labels_at(alloc: Global, sound: &Sound, places: &[BlockId]) -> Result<Path, NoMemory>
    requires { All (λ block. block.0 < length sound.now.func.blocks) places.now }
    ensures { IfOk result (λ path. path ≡ labels_at sound.now.func places.now) }
{
    let mut path = Sequence::new(alloc);
    let blocks = sound.func().blocks.items();
    for place in places {
        path.push(blocks[place.0 as usize].label.copy(alloc)?)?;
    }
    Ok(path)
}
