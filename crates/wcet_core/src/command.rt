ghost use Rattle.std.specs.Prelude.{◌≡◌};
ghost use Rattle.wx_base.specs.Faults.{Rose};
ghost use Rattle.witness_report.specs.Report.{answer_text};
ghost use Rattle.witness_report.specs.declared.answer.Answer.TheVariants as answers;
ghost use Rattle.witness_report.specs.declared.outcome.Written.TheVariants as written;
ghost use Rattle.wcet_core.specs.Promises.{Says, Decides, Keeps, WritesText};

use crate::answer::answer;
use crate::laws::decides;
use std::alloc::Global;
use witness_report::{Answer, Outcome, Written, text};
use wx_base::{Files, PutError, Sink, Words};

/// Does what the words of a command line ask for, and writes the answer's text to `out`.
///
/// - `analyse FUNCTION FILE COSTS` is the worst case of the function FUNCTION of the file FILE, whose blocks and
///   edges cost what COSTS says, where its parameters have at most `TRIAL_BITS` bits in all; `brute` the same for
///   `BRUTE_BITS`. All arguments are tried.
/// - `run FUNCTION FILE COSTS ARG..` is one run.
///
/// The files are asked for in this order, and nothing is stored. The first of these is answered:
///
/// - `Usage`, where the words are no command;
/// - over FILE: `FetchFault`, where the outside failed; `TooLong`, where there are more than `FILE_LIMIT` bytes;
///   `Read`, where it spells no function of this name; `Verify`, where the function breaks a rule;
/// - over COSTS: `FetchFault`; `TooLong`, where there are more than `COSTS_LIMIT` bytes; `Cost`, where it is no
///   table of the function's costs;
/// - for `run` `BadArgs`, where the words are no arguments of the function; for the others `TooWide`, where its
///   parameters have more bits than are tried;
/// - `Ran` or `Undefined` for `run`; else `Exact`, with the first of the arguments that cost the most, or `NoRun`.
///
/// `NoMemory` comes in place of any of them where memory is wanting, and then nothing is put.
pub fn run<F: Files, S: Sink>(alloc: Global, words: &Words, files: &mut F, out: &mut S) -> Outcome
    // What the answer says, of the words and of what the files told.
    ensures says { Says words.now (F.view files.old) (F.view files.new) result.answer }

    // Files that tell their contents and don't fail decide the answer.
    ensures decided { Decides words.now (F.view files.old) (F.view files.new) result.answer }

    // What was done to the outside.
    ensures keeps { Keeps (F.view files.old) (F.view files.new) }
    ensures writes { WritesText (S.view out.old) (S.view out.new)
        (answer_text result.answer) result.written }
    ensures failed { result.written ≡ written.Failed
        → Rose (S.view out.old).faults (S.view out.new).faults }
    ensures silent { result.answer ≡ answers.NoMemory → S.view out.new ≡ S.view out.old }
{
    decides();
    let answer = answer(alloc, words, files);
    let written = write(alloc, &answer, out);
    Outcome { answer, written }
}

// Writes the text of an answer. Want of memory has none, and then nothing is put.
fn write<S: Sink>(alloc: Global, answer: &Answer, out: &mut S) -> Written
    ensures writes { WritesText (S.view out.old) (S.view out.new) (answer_text answer.now) result }
    ensures failed { result ≡ written.Failed
        → Rose (S.view out.old).faults (S.view out.new).faults }
    ensures silent { answer.now ≡ answers.NoMemory → S.view out.new ≡ S.view out.old }
{
    if let Answer::NoMemory = answer {
        return Written::NoMemory;
    }
    let Ok(text) = text(alloc, answer) else {
        return Written::NoMemory;
    };
    match out.put(&text) {
        Ok(()) => Written::Full,
        Err(PutError::Failed) => Written::Failed,
        Err(PutError::NoMemory) => Written::NoMemory,
    }
}
