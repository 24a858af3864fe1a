//! What is told of a solver.

use mix_system::Tally;
use proof_checker::Verdict;
use proof_term::{Goal, Step};
use std::alloc::Global;
use wx_base::NoMemory;

pub fn said(alloc: Global, text: &str) -> Result<String, NoMemory> {
    Ok(String::from_str(alloc, text)?)
}

pub fn no_call(alloc: Global) -> Result<String, NoMemory> {
    said(alloc, "no call")
}

pub fn found_text(alloc: Global, point: &[i128]) -> Result<String, NoMemory> {
    let mut line = said(alloc, "found")?;
    for number in point {
        line.push_str(format!(in alloc; " {number}")?.as_str())?;
    }
    Ok(line)
}

/// The counts of decisions, propagations, conflicts, splits and checks.
pub fn counts_text(alloc: Global, tally: &Tally) -> Result<String, NoMemory> {
    let counts = [
        tally.decisions,
        tally.propagations,
        tally.conflicts,
        tally.splits,
        tally.checks,
    ];
    Ok(format!(in alloc; "counts {counts:?}")?)
}

/// How many lemmas and theories there are, and how many of them are the empty clause: `ended` where
/// the last one alone is.
pub fn steps_text(alloc: Global, steps: &[Step]) -> Result<String, NoMemory> {
    let lemmas = steps.iter().filter(|step| is_lemma(step)).count();
    let theories = steps.iter().filter(|step| is_theory(step)).count();
    let end = end_text(steps);
    Ok(format!(in alloc; "lemmas {lemmas}, theories {theories}, {end}")?)
}

fn is_lemma(step: &Step) -> bool {
    matches!(step, Step::Lemma { .. })
}

fn is_theory(step: &Step) -> bool {
    matches!(step, Step::Theory { .. })
}

fn end_text(steps: &[Step]) -> &'static str {
    let ends = steps.iter().filter(|step| is_end(step)).count();
    let Some(last) = steps.last() else {
        return "open";
    };
    if ends == 0 {
        return "open";
    }
    if ends == 1 && is_end(last) {
        "ended"
    } else {
        "ended before"
    }
}

fn is_end(step: &Step) -> bool {
    match step {
        Step::Lemma { clause, .. } => clause.items().is_empty(),
        Step::Theory { clause, .. } => clause.items().is_empty(),
        _ => false,
    }
}

/// A verdict on a text. Where its last line alone fails, all that stands before holds so far.
pub fn verdict_text(alloc: Global, verdict: Verdict, text: &[u8]) -> Result<String, NoMemory> {
    let lines = text.iter().filter(|byte| **byte == b'\n').count();
    Ok(match verdict {
        Verdict::Yes(Goal::AtMost(most)) => format!(in alloc; "yes at-most {most}")?,
        Verdict::Yes(_) => said(alloc, "yes none")?,
        Verdict::No { line, .. } if line == lines as u64 => said(alloc, "holds so far")?,
        Verdict::No { line, reason } => format!(in alloc; "no line {line} {reason:?}")?,
    })
}

/// A text with a mark for each line feed.
pub fn marked(alloc: Global, text: &[u8]) -> Result<String, NoMemory> {
    let Ok(text) = str::from_utf8(text) else {
        return no_call(alloc);
    };
    let mut line = String::new(alloc);
    for part in text.lines() {
        line.push_str(if line.is_empty() { "" } else { " / " })?;
        line.push_str(part)?;
    }
    Ok(line)
}
