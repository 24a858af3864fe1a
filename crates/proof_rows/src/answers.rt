use crate::systems::system_of_three;
use mix_system::Term;
use proof_checker::{Checker, Fed, Reason, Verdict, check};
use proof_term::Goal;
use std::alloc::Global;
use wx_base::NoMemory;
use wx_num::{Excess, NumOp};

// The answer to a text.
pub fn text(alloc: Global, contrary: bool, marked: &str) -> Result<String, NoMemory> {
    let bytes = bytes_of(alloc, marked)?;
    shown(alloc, verdict(alloc, contrary, bytes.as_slice())?)
}

// A text with line feeds for its marks.
fn bytes_of(alloc: Global, marked: &str) -> Result<Vec<u8>, NoMemory> {
    let mut bytes = Vec::new(alloc);
    for byte in marked.as_bytes() {
        bytes.push(if *byte == b'/' { b'\n' } else { *byte })?;
    }
    Ok(bytes)
}

fn verdict(alloc: Global, contrary: bool, bytes: &[u8]) -> Result<Verdict, NoMemory> {
    let system = system_of_three(alloc, contrary)?;
    check(alloc, &system, Term::Row(0), bytes)
}

fn shown(alloc: Global, verdict: Verdict) -> Result<String, NoMemory> {
    Ok(match verdict {
        Verdict::Yes(Goal::AtMost(most)) => format!(in alloc; "yes at-most {most}")?,
        Verdict::Yes(_) => String::from_str(alloc, "yes none")?,
        Verdict::No {
            line,
            reason: Reason::TooLarge(excess),
        } => too_large(alloc, line, excess)?,
        Verdict::No {
            line,
            reason: Reason::OtherSystem { vars, clauses },
        } => format!(in alloc; "no line {line} other-system {vars} {clauses}")?,
        Verdict::No { line, reason } => format!(in alloc; "no line {line} {}", name_of(reason))?,
    })
}

fn too_large(alloc: Global, line: u64, excess: Excess) -> Result<String, NoMemory> {
    let Excess { op, x, y } = excess;
    let op = match op {
        NumOp::Plus => "plus",
        NumOp::Minus => "minus",
        NumOp::Times => "times",
    };
    Ok(format!(in alloc; "no line {line} too-large {x} {op} {y}")?)
}

fn name_of(reason: Reason) -> &'static str {
    match reason {
        Reason::BadText => "bad-text",
        Reason::OutOfRange => "out-of-range",
        Reason::TooDeep => "too-deep",
        Reason::Hints => "hints",
        Reason::NotInBox => "not-in-box",
        Reason::NotZero => "not-zero",
        Reason::NotContradictory => "not-contradictory",
        Reason::TooLarge(_) => "too-large",
        Reason::Unfinished => "unfinished",
        Reason::OtherSystem { .. } => "other-system",
    }
}

// The answer to each beginning of a text, by its length: a new one is told where it first comes.
pub fn beginnings(alloc: Global, call: &str) -> Result<String, NoMemory> {
    let (of, marked) = call.split_once(' ').unwrap_or((call, ""));
    let bytes = bytes_of(alloc, marked)?;
    let mut told = String::new(alloc);
    let mut last = None;
    for len in 0..bytes.len() {
        let (front, _) = bytes.split_at(len);
        let found = verdict(alloc, of == "U", front)?;
        if last == Some(found) {
            continue;
        }
        last = Some(found);
        let answer = shown(alloc, found)?;
        told.push_str(format!(in alloc; "{len}: {answer}; ")?.as_str())?;
    }
    Ok(told)
}

// The answer to a text a part of which is repeated.
pub fn repeated(alloc: Global, call: &str) -> Result<String, NoMemory> {
    let (times, call) = call.split_once(' ').unwrap_or((call, ""));
    let (of, marked) = call.split_once(' ').unwrap_or((call, ""));
    let (front, rest) = marked.split_once('|').unwrap_or((marked, ""));
    let (part, back) = rest.split_once('|').unwrap_or((rest, ""));
    let mut bytes = bytes_of(alloc, front)?;
    let part = bytes_of(alloc, part)?;
    for _ in 0..times.parse::<u64>().unwrap_or(0) {
        bytes.extend_from_slice(part.as_slice())?;
    }
    bytes.extend_from_slice(bytes_of(alloc, back)?.as_slice())?;
    shown(alloc, verdict(alloc, of == "U", bytes.as_slice())?)
}

// What lines come to that are fed one by one, and the answer to them and the rest behind the last
// line feed.
pub fn fed(alloc: Global, call: &str) -> Result<String, NoMemory> {
    let (of, marked) = call.split_once(' ').unwrap_or((call, ""));
    let (lines, rest) = marked.split_once('|').unwrap_or((marked, ""));
    let system = system_of_three(alloc, of == "U")?;
    let mut checker = Checker::new(alloc, &system, Term::Row(0))?;
    let mut going: u64 = 0;
    let mut answer = Fed::Going;
    for line in lines.split('/') {
        answer = checker.line(line.as_bytes())?;
        going = going.saturating_add(u64::from(answer == Fed::Going));
    }
    let failed = answer != Fed::Going;
    let answer = shown(alloc, checker.end(rest.as_bytes()))?;
    let end = if failed { ", then one that fails" } else { "" };
    Ok(format!(in alloc; "{going} lines pass{end}; {answer}")?)
}
