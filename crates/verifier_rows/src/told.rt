//! What is told of a fault.

use ll_verifier::{Spot, VerifyFault};
use std::alloc::Global;
use wx_base::{Name, NoMemory};

pub fn no_row(alloc: Global) -> Result<String, NoMemory> {
    Ok(String::from_str(alloc, "no row")?)
}

/// The rule that is broken, with its names and its place.
pub fn fault_text(alloc: Global, fault: &VerifyFault) -> Result<String, NoMemory> {
    match fault {
        VerifyFault::TooMany(_) => Ok(String::from_str(alloc, "too-many")?),
        VerifyFault::NameTwice { name } => named(alloc, "name-twice", name),
        VerifyFault::NoSuchName { name, at } => named_at(alloc, "no-such-name", name, at),
        VerifyFault::TypeDiffers { at } => placed(alloc, "type-differs", at),
        VerifyFault::DuplicateCase { at, value } => case_text(alloc, *value, at),
        VerifyFault::NotLinear { at } => placed(alloc, "not-linear", at),
        VerifyFault::BadDivisor { at } => placed(alloc, "bad-divisor", at),
        VerifyFault::PhiEntries { at } => placed(alloc, "phi-entries", at),
        VerifyFault::Loop { cycle } => listed(alloc, "loop", cycle.items()),
        VerifyFault::Unreached { block } => named(alloc, "unreached", block),
        VerifyFault::NotDefined { at, name, path } => {
            let line = named_at(alloc, "not-defined", name, at)?;
            listed(
                alloc,
                format!(in alloc; "{line} on")?.as_str(),
                path.items(),
            )
        }
        VerifyFault::NoMemory => Err(NoMemory),
    }
}

/// The bytes of a name, as text.
pub fn text_of(name: &Name) -> &str {
    std::str::from_utf8(name.bytes()).unwrap_or("?")
}

pub fn named(alloc: Global, rule: &str, name: &Name) -> Result<String, NoMemory> {
    Ok(format!(in alloc; "{rule} {}", text_of(name))?)
}

fn placed(alloc: Global, rule: &str, at: &Spot) -> Result<String, NoMemory> {
    Ok(format!(in alloc; "{rule} {} {}", text_of(&at.block), at.item)?)
}

fn case_text(alloc: Global, value: u32, at: &Spot) -> Result<String, NoMemory> {
    let rule = format!(in alloc; "duplicate-case {value}")?;
    placed(alloc, rule.as_str(), at)
}

fn named_at(alloc: Global, rule: &str, name: &Name, at: &Spot) -> Result<String, NoMemory> {
    let line = named(alloc, rule, name)?;
    placed(alloc, line.as_str(), at)
}

fn listed(alloc: Global, word: &str, labels: &[Name]) -> Result<String, NoMemory> {
    let mut line = String::from_str(alloc, word)?;
    for label in labels {
        line.push(' ')?;
        line.push_str(text_of(label))?;
    }
    Ok(line)
}
