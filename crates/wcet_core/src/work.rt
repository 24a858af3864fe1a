ghost use Rattle.std.specs.Prelude.{MatchResult, ◌≡◌};
ghost use Rattle.sound_costs.specs.Costs.{AreCostsOf, costs_by_label};
ghost use Rattle.command_words.specs.Words.{words_of};
ghost use Rattle.witness_report.specs.declared.answer.Answer.TheVariants as answers;
ghost use Rattle.wcet_core.specs.Causes.{IsAnswer};
ghost use Rattle.wcet_core.specs.Promises.{Either};

use crate::limits::{BRUTE_BITS, TRIAL_BITS};
use crate::single::single;
use crate::worst::worst;
use command_words::{Command, Job};
use ll_verifier::Sound;
use sound_costs::Costs;
use std::alloc::Global;
use witness_report::{Answer, How};
use wx_base::NoMemory;

/// What is answered of a job's function with its costs.
pub(crate) fn work(alloc: Global, job: Job<'_>, sound: &Sound, costs: &Costs) -> Answer
    requires { AreCostsOf sound.now.func costs.now }
    ensures { let by_label = costs_by_label sound.now.func costs.now in
        Either (IsAnswer (words_of job.entry) sound.now.func by_label result) result }
{
    match job.command {
        Command::Analyse => answer_in(worst(alloc, TRIAL_BITS, How::Trial, sound, costs)),
        Command::Run => answer_in(single(alloc, job.arguments, sound, costs)),
        Command::Brute => answer_in(worst(alloc, BRUTE_BITS, How::Brute, sound, costs)),
    }
}

fn answer_in(found: Result<Answer, NoMemory>) -> Answer
    ensures { MatchResult found (λ answer. result ≡ answer) (λ _. result ≡ answers.NoMemory) }
{
    match found {
        Ok(answer) => answer,
        Err(NoMemory) => Answer::NoMemory,
    }
}
