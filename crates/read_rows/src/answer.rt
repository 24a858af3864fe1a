//! What is told of a row.

use crate::row::{Row, row_of};
use crate::token::{held, token_list};
use ll_reader::{ReadFault, read};
use ll_token::FaultKind;
use ll_tree::{Func, print};
use std::alloc::Global;
use wx_base::{Name, NoMemory};

/// The longest text that is read.
pub const MOST: usize = 1 << 16;

/// What is told of a fault but for its token, and its line.
fn kind_of(fault: &ReadFault) -> (&'static str, u32) {
    match fault {
        ReadFault::NoFunction => ("NoFunction", 0),
        ReadFault::TwoFunctions => ("TwoFunctions", 0),
        ReadFault::NotClosed => ("NotClosed", 0),
        ReadFault::Token(fault) => match fault.kind {
            FaultKind::BadByte => ("BadByte", fault.line),
            FaultKind::OpenString => ("OpenString", fault.line),
            FaultKind::BadEscape => ("BadEscape", fault.line),
        },
        ReadFault::NotInProfile { line, .. } => ("NotInProfile", *line),
        ReadFault::BadWidth { line, .. } => ("BadWidth", *line),
        ReadFault::BadLiteral { line, .. } => ("BadLiteral", *line),
        ReadFault::NoLabel { line, .. } => ("NoLabel", *line),
        ReadFault::Unexpected { line, .. } => ("Unexpected", *line),
        ReadFault::NoMemory => ("NoMemory", 0),
    }
}

/// The token of a fault, where it has one.
fn token_of(fault: &ReadFault) -> Option<&str> {
    match fault {
        ReadFault::NotInProfile { text, .. }
        | ReadFault::BadWidth { text, .. }
        | ReadFault::BadLiteral { text, .. }
        | ReadFault::NoLabel { text, .. }
        | ReadFault::Unexpected { text, .. } => std::str::from_utf8(text.bytes()).ok(),
        _ => None,
    }
}

/// A fault: its kind, its line where it has one, and its token.
fn told(alloc: Global, fault: &ReadFault) -> Result<String, NoMemory> {
    let (kind, line) = kind_of(fault);
    let text = match token_of(fault) {
        Some(token) => format!(in alloc; "{kind} {line} {token}"),
        None if line == 0 => format!(in alloc; "{kind}"),
        None => format!(in alloc; "{kind} {line}"),
    };
    Ok(text?)
}

/// Bytes in one line, as a row writes them.
pub fn shown(alloc: Global, bytes: &[u8]) -> Result<String, NoMemory> {
    let mut line = String::new(alloc);
    for byte in bytes {
        line.push(match *byte {
            b'\n' => '~',
            0 => '&',
            255 => '?',
            other => char::from(other),
        })?;
    }
    Ok(line)
}

fn canonical(alloc: Global, func: &Func) -> Result<String, NoMemory> {
    shown(alloc, &print(alloc, func)?)
}

fn read_as(alloc: Global, file: &[u8], name: &Name, prints: bool) -> Result<String, NoMemory> {
    if file.len() > MOST {
        return Ok(format!(in alloc; "too long")?);
    }
    match read(alloc, file, name) {
        Ok(func) if prints => canonical(alloc, &func),
        Ok(_) => Ok(format!(in alloc; "read")?),
        Err(fault) => told(alloc, &fault),
    }
}

/// What is answered for a row.
pub fn answer(alloc: Global, row: &str) -> Result<String, NoMemory> {
    match row_of(alloc, row)? {
        Some(Row::Read { file, name, prints }) => read_as(alloc, &file, &name, prints),
        Some(Row::Tokens(text)) => token_list(alloc, &text),
        Some(Row::Held(text)) => held(alloc, &text),
        None => Ok(format!(in alloc; "no row")?),
    }
}
