//! What the verifier says of a function, and its table of costs.

use crate::costs::table_text;
use crate::links::links_text;
use crate::texts::{copied, copies_of, plain};
use crate::told::{fault_text, no_row};
use ll_reader::read;
use ll_verifier::{Sound, verify};
use std::alloc::Global;
use wx_base::{Name, NoMemory};

/// The longest text that is read.
pub const MOST: usize = 1 << 20;

// What is asked of a function that keeps the rules.
#[derive(Clone, Copy)]
enum Asked<'a> {
    Nothing,
    Numbers,
    Costs(&'a [u8]),
}

/// `rule FUNCTION`: the rule that it breaks, or `kept`.
pub fn rule(alloc: Global, call: &str) -> Result<String, NoMemory> {
    verdict(alloc, &plain(alloc, call)?, Asked::Nothing)
}

/// `links FUNCTION`: the numbers of what its items name and give.
pub fn links(alloc: Global, call: &str) -> Result<String, NoMemory> {
    verdict(alloc, &plain(alloc, call)?, Asked::Numbers)
}

/// `cost FUNCTION|TABLE`: the costs of its blocks and of its edges, or the table's fault.
pub fn cost(alloc: Global, call: &str) -> Result<String, NoMemory> {
    let (text, table) = call.split_once('|').unwrap_or((call, ""));
    let table = plain(alloc, table)?;
    verdict(alloc, &plain(alloc, text)?, Asked::Costs(&table))
}

/// `copies HEAD|PIECE|TAIL|COUNT`: what is said of a function with so many copies of a piece.
pub fn copies(alloc: Global, call: &str) -> Result<String, NoMemory> {
    match copies_of(call) {
        Some(copies) => verdict(alloc, &copied(alloc, copies, 0)?, Asked::Nothing),
        None => no_row(alloc),
    }
}

/// `limit HEAD|PIECE|TAIL|COUNT`: the same of so many copies, and of one more.
pub fn limit(alloc: Global, call: &str) -> Result<String, NoMemory> {
    let Some(copies) = copies_of(call) else {
        return no_row(alloc);
    };
    let at = verdict(alloc, &copied(alloc, copies, 0)?, Asked::Nothing)?;
    let above = verdict(alloc, &copied(alloc, copies, 1)?, Asked::Nothing)?;
    Ok(format!(in alloc; "{at}, one more {above}")?)
}

// What is said of the function `f` of a text: the rule that it breaks, or what is asked.
fn verdict(alloc: Global, text: &[u8], asked: Asked) -> Result<String, NoMemory> {
    if text.len() > MOST {
        return no_row(alloc);
    }
    let Ok(func) = read(alloc, text, &Name::new(alloc, b"f")?) else {
        return Ok(String::from_str(alloc, "not read")?);
    };
    match verify(alloc, func) {
        Ok(sound) => answered(alloc, &sound, asked),
        Err(rejected) => fault_text(alloc, &rejected.fault),
    }
}

fn answered(alloc: Global, sound: &Sound, asked: Asked) -> Result<String, NoMemory> {
    match asked {
        Asked::Nothing => Ok(String::from_str(alloc, "kept")?),
        Asked::Numbers => links_text(alloc, sound),
        Asked::Costs(table) => table_text(alloc, sound, table),
    }
}
