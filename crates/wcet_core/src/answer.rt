ghost use Rattle.std.specs.Prelude.{◌≡◌, ◌<◌, ◌^◌, length, IfOk, IfErr};
ghost use Rattle.ll_reader.specs.FileSpells.{FileSpells};
ghost use Rattle.ll_verifier.specs.Rules.{Rules};
ghost use Rattle.sound_costs.specs.Costs.{AreCostsOf, IsTableOf};
ghost use Rattle.wcet_core.specs.Promises.{Keeps, Says};
ghost use Rattle.wcet_core.specs.Steps.{RefusesText, RefusesTable, unfetched, rejection};

use crate::limits::{COSTS_LIMIT, FILE_LIMIT};
use crate::work::work;
use command_words::job_of;
use cost_table::CostFault;
use ll_reader::{ReadFault, read};
use ll_verifier::{Sound, VerifyFault, verify};
use sound_costs::{Costs, read_costs};
use std::alloc::Global;
use witness_report::{Answer, Which};
use wx_base::{FetchError, Files, Name, Words};

/// What is answered of the words.
pub(crate) fn answer<F: Files>(alloc: Global, words: &Words, files: &mut F) -> Answer
    ensures says { Says words.now (F.view files.old) (F.view files.new) result }
    ensures keeps { Keeps (F.view files.old) (F.view files.new) }
{
    let Some(job) = job_of(words) else {
        return Answer::Usage;
    };
    let text = match files.fetch(alloc, job.file, FILE_LIMIT) {
        Ok(text) => text,
        Err(error) => return unfetched(error, Which::File),
    };
    let sound = match sound_in(alloc, &text, job.function) {
        Ok(sound) => sound,
        Err(refusal) => return refusal,
    };
    let table = match files.fetch(alloc, job.costs, COSTS_LIMIT) {
        Ok(table) => table,
        Err(error) => return unfetched(error, Which::Costs),
    };
    let costs = match costs_in(alloc, &table, &sound) {
        Ok(costs) => costs,
        Err(refusal) => return refusal,
    };
    work(alloc, job, &sound, &costs)
}

fn unfetched(error: FetchError, file: Which) -> Answer
    ensures { result ≡ unfetched error file }
{
    match error {
        FetchError::Failed => Answer::FetchFault(file),
        FetchError::TooLong => Answer::TooLong(file),
        FetchError::NoMemory => Answer::NoMemory,
    }
}

// The function that a text spells, which keeps all rules.
fn sound_in(alloc: Global, text: &[u8], name: &Name) -> Result<Sound, Answer>
    requires { length text.now < 2 ^ 31 }
    ensures spells { IfOk result (λ sound. FileSpells text.now name.now sound.func) }
    ensures sound { IfOk result (λ sound. Rules sound.func) }
    ensures refusal { IfErr result (RefusesText text.now name.now) }
{
    let func = match read(alloc, text, name) {
        Ok(func) => func,
        Err(ReadFault::NoMemory) => return Err(Answer::NoMemory),
        Err(fault) => return Err(Answer::Read(fault)),
    };
    match verify(alloc, func) {
        Ok(sound) => Ok(sound),
        Err(rejected) => Err(rejection(rejected.fault)),
    }
}

fn rejection(fault: VerifyFault) -> Answer
    ensures { result ≡ rejection fault }
{
    match fault {
        VerifyFault::NoMemory => Answer::NoMemory,
        fault => Answer::Verify(fault),
    }
}

// The costs that a table gives the function.
fn costs_in(alloc: Global, text: &[u8], sound: &Sound) -> Result<Costs, Answer>
    requires { length text.now < 2 ^ 31 }
    ensures costs { IfOk result (AreCostsOf sound.now.func) }
    ensures table { IfOk result (λ costs. IsTableOf text.now sound.now.func costs.lists) }
    ensures refusal { IfErr result (RefusesTable text.now sound.now.func) }
{
    match read_costs(alloc, text, sound) {
        Ok(costs) => Ok(costs),
        Err(CostFault::NoMemory) => Err(Answer::NoMemory),
        Err(fault) => Err(Answer::Cost(fault)),
    }
}
