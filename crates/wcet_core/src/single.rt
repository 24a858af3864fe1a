ghost use Rattle.std.specs.Prelude.{IfOk};
ghost use Rattle.sound_costs.specs.Costs.{AreCostsOf, costs_by_label};
ghost use Rattle.wcet_core.specs.Steps.{SaysOfRun};

use crate::ended::{Ended, run_on};
use command_words::arguments_of;
use ll_verifier::Sound;
use sound_costs::Costs;
use std::alloc::Global;
use witness_report::Answer;
use wx_base::{Name, NoMemory};

/// What is answered of one run on the arguments that words give.
pub(crate) fn single(
    alloc: Global,
    words: &[Name],
    sound: &Sound,
    costs: &Costs,
) -> Result<Answer, NoMemory>
    requires { AreCostsOf sound.now.func costs.now }
    ensures { let by_label = costs_by_label sound.now.func costs.now in
        IfOk result (SaysOfRun sound.now.func by_label words.now) }
{
    let params = sound.func().params.items();
    let args = match arguments_of(alloc, params, words)? {
        Ok(args) => args,
        Err(place) => return Ok(Answer::BadArgs { place }),
    };
    match run_on(alloc, args, sound, costs)? {
        Ended::Ran(witness) => Ok(Answer::Ran(witness)),
        Ended::Stuck { block, cause } => Ok(Answer::Undefined { block, cause }),
    }
}
