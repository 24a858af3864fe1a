//! What `wcet` prints for an answer.

ghost use Rattle.std.specs.Prelude.{◌≡◌, ◌++◌, codes, decimal, IfOk, OnOk};
ghost use Rattle.std.specs.List.{flat_map};
ghost use Rattle.witness_report.specs.Parts.{line, spaced, spaced_arg, spaced_name};
ghost use Rattle.witness_report.specs.Report.{answer_text, cause_word, end_text, exact_text, how_word, none_text, portion_text, ran_text, run_text, usage_text, which_word};

use crate::parts::{
    push, push_args, push_line, push_names_line, push_number, push_number_line, push_spaced_name,
    push_value,
};
use crate::refusals::{push_cost, push_read, push_verify};
use crate::{Answer, How, PortionBound, Which, Witness};
use ir_runs::{RetVal, UndefinedCause};
use std::alloc::Global;
use wx_base::{Arg, Name, NoMemory};

/// What `wcet` prints for an answer: lines that are each ended by a line feed. A name is `%` and the name as the
/// canonical text of a function has it. Out of memory prints nothing.
pub fn text(alloc: Global, answer: &Answer) -> Result<Vec<u8>, NoMemory>
    ensures { IfOk result (λ text. text.items ≡ answer_text answer.now) }
{
    let mut text = Vec::new(alloc);
    push_answer(&mut text, answer)?;
    Ok(text)
}

fn push_answer(text: &mut Vec<u8>, answer: &Answer) -> Result<(), NoMemory>
    ensures { OnOk result (text.new.items ≡ text.old.items ++ answer_text answer.now) }
{
    match answer {
        Answer::Exact {
            witness,
            how,
            portions,
        } => push_exact(text, witness, *how, portions.items()),
        Answer::NoRun { how } => push_none(text, *how),
        Answer::Ran(witness) => push_ran(text, witness),
        Answer::Undefined { block, cause } => push_undefined(text, block, *cause),
        Answer::Usage => push_usage(text),
        Answer::FetchFault(file) => push_words_line(text, b"fault read ", which_word(*file)),
        Answer::TooLong(file) => push_words_line(text, b"refused too-long ", which_word(*file)),
        Answer::Read(fault) => push_read(text, fault),
        Answer::Verify(fault) => push_verify(text, fault),
        Answer::Cost(fault) => push_cost(text, fault),
        Answer::TooWide { bits } => {
            push_number_line(text, b"refused too-wide ", u64::from(*bits))
        }
        Answer::BadArgs { place } => {
            push_number_line(text, b"refused bad-args ", u64::from(*place))
        }
        Answer::NoMemory => Ok(()),
    }
}

#[tactic(auto, unfolding(crate::specs::Report::exact_text))]
fn push_exact(
    text: &mut Vec<u8>,
    witness: &Witness,
    how: How,
    portions: &[PortionBound],
) -> Result<(), NoMemory>
    ensures { OnOk result (text.new.items
        ≡ text.old.items ++ exact_text witness.now how portions.now) }
{
    push_number_line(text, b"exact ", witness.cost)?;
    push_args_line(text, witness.args.items())?;
    push_run(text, witness.path.items(), witness.result)?;
    push_words_line(text, b"method ", how_word(how))?;
    push_portions(text, portions)
}

#[tactic(auto, unfolding(crate::specs::Report::none_text))]
fn push_none(text: &mut Vec<u8>, how: How) -> Result<(), NoMemory>
    ensures { OnOk result (text.new.items ≡ text.old.items ++ none_text how) }
{
    push_line(text, b"none")?;
    push_words_line(text, b"method ", how_word(how))
}

#[tactic(auto, unfolding(crate::specs::Report::ran_text))]
fn push_ran(text: &mut Vec<u8>, witness: &Witness) -> Result<(), NoMemory>
    ensures { OnOk result (text.new.items ≡ text.old.items ++ ran_text witness.now) }
{
    push_number_line(text, b"ran ", witness.cost)?;
    push_run(text, witness.path.items(), witness.result)
}

fn push_undefined(text: &mut Vec<u8>, block: &Name, cause: UndefinedCause) -> Result<(), NoMemory>
    ensures { OnOk result (text.new.items
        ≡ text.old.items
        ++ line (codes "undefined" ++ (spaced_name block.now ++ (codes " " ++ cause_word cause)))) }
{
    push(text, b"undefined")?;
    push_spaced_name(text, block)?;
    push_words_line(text, b" ", cause_word(cause))
}

#[tactic(auto, unfolding(crate::specs::Report::usage_text))]
fn push_usage(text: &mut Vec<u8>) -> Result<(), NoMemory>
    ensures { OnOk result (text.new.items ≡ text.old.items ++ usage_text) }
{
    push_line(text, b"usage: wcet analyse FUNCTION FILE COSTS")?;
    push_line(text, b"usage: wcet run FUNCTION FILE COSTS ARG..")?;
    push_line(text, b"usage: wcet brute FUNCTION FILE COSTS")
}

fn push_args_line(text: &mut Vec<u8>, args: &[Arg]) -> Result<(), NoMemory>
    ensures { OnOk result (text.new.items
        ≡ text.old.items ++ line (codes "args" ++ flat_map spaced_arg args.now)) }
{
    push(text, b"args")?;
    push_args(text, args)?;
    push(text, b"\n")
}

#[tactic(auto, unfolding(crate::specs::Report::run_text))]
fn push_run(text: &mut Vec<u8>, path: &[Name], result_value: RetVal) -> Result<(), NoMemory>
    ensures { OnOk result (text.new.items ≡ text.old.items ++ run_text path.now result_value) }
{
    push_names_line(text, b"path", path)?;
    push(text, b"result")?;
    push_value(text, result_value)?;
    push(text, b"\n")
}

fn push_portions(text: &mut Vec<u8>, portions: &[PortionBound]) -> Result<(), NoMemory>
    ensures { OnOk result (text.new.items ≡ text.old.items ++ flat_map portion_text portions.now) }
{
    for portion in portions {
        push_portion(text, portion)?;
    }
    Ok(())
}

#[tactic(auto, unfolding(crate::specs::Report::portion_text))]
fn push_portion(text: &mut Vec<u8>, portion: &PortionBound) -> Result<(), NoMemory>
    ensures { OnOk result (text.new.items ≡ text.old.items ++ portion_text portion.now) }
{
    push(text, b"portion")?;
    push_spaced_name(text, &portion.from)?;
    push_end(text, &portion.to)?;
    push_number_line(text, b" ", portion.bound)
}

fn push_end(text: &mut Vec<u8>, to: &Option<Name>) -> Result<(), NoMemory>
    ensures { OnOk result (text.new.items ≡ text.old.items ++ end_text to.now) }
{
    match to {
        Some(name) => push_spaced_name(text, name),
        None => push(text, b" -"),
    }
}

// A line of two words.
fn push_words_line(text: &mut Vec<u8>, words: &[u8], word: &[u8]) -> Result<(), NoMemory>
    ensures { OnOk result (text.new.items ≡ text.old.items ++ line (words.now ++ word.now)) }
{
    push(text, words)?;
    push_line(text, word)
}

fn how_word(how: How) -> &'static [u8]
    ensures { result.now ≡ how_word how }
{
    match how {
        How::Trial => b"trial",
        How::Brute => b"brute",
    }
}

fn which_word(which: Which) -> &'static [u8]
    ensures { result.now ≡ which_word which }
{
    match which {
        Which::File => b"file",
        Which::Costs => b"costs",
        Which::Proof => b"proof",
    }
}

fn cause_word(cause: UndefinedCause) -> &'static [u8]
    ensures { result.now ≡ cause_word cause }
{
    match cause {
        UndefinedCause::PoisonBranch => b"poison-branch",
        UndefinedCause::PoisonSwitch => b"poison-switch",
        UndefinedCause::PoisonReturn => b"poison-return",
        UndefinedCause::Unreachable => b"unreachable",
        UndefinedCause::PoisonArgument => b"poison-argument",
        UndefinedCause::FalseAssume => b"false-assume",
    }
}
