//! What is told of the tokens of a text, and of the name that one holds.

use crate::answer::{MOST, shown};
use ll_token::{Token, TokenKind, local_name, name_of, tokens};
use std::alloc::Global;
use wx_base::{Name, NoMemory};

/// The number of a text's first line.
const FIRST_LINE: u32 = 7;

/// Each token's kind, span and line.
fn listed(alloc: Global, tokens: &[Token]) -> Result<String, NoMemory> {
    let mut list = String::new(alloc);
    for token in tokens {
        if !list.is_empty() {
            list.push(' ')?;
        }
        let Token {
            kind,
            start,
            end,
            line,
        } = *token;
        let told = format!(in alloc; "{kind:?} {start} {end} {line};")?;
        list.push_str(told.as_str())?;
    }
    Ok(list)
}

/// The tokens of a text, or its first fault with its place and line.
pub fn token_list(alloc: Global, text: &[u8]) -> Result<String, NoMemory> {
    if text.len() > MOST {
        return Ok(format!(in alloc; "too long")?);
    }
    match tokens(alloc, text, FIRST_LINE)? {
        Ok(found) if found.len() == 0 => Ok(format!(in alloc; "none")?),
        Ok(found) => listed(alloc, found.items()),
        Err(fault) => {
            Ok(format!(in alloc; "{:?} at {} {}", fault.kind, fault.place, fault.line)?)
        }
    }
}

/// The name that the one token of a text holds.
fn name_in(alloc: Global, text: &[u8]) -> Result<Option<Name>, NoMemory> {
    if text.len() > MOST {
        return Ok(None);
    }
    let Ok(found) = tokens(alloc, text, FIRST_LINE)? else {
        return Ok(None);
    };
    if found.len() != 1 {
        return Ok(None);
    }
    let token = found.items()[0];
    match token.kind {
        TokenKind::Local | TokenKind::Global | TokenKind::Label | TokenKind::String => {
            Ok(Some(name_of(alloc, text, &token)?))
        }
        _ => Ok(None),
    }
}

/// The name that the one token of a text holds, or `none`; and the name that the whole text is as a local one.
pub fn held(alloc: Global, text: &[u8]) -> Result<String, NoMemory> {
    let held = match name_in(alloc, text)? {
        Some(name) => shown(alloc, name.bytes())?,
        None => format!(in alloc; "none")?,
    };
    match local_name(alloc, text)? {
        Some(name) => {
            let local = shown(alloc, name.bytes())?;
            Ok(format!(in alloc; "{held}, local {local}")?)
        }
        None => Ok(held),
    }
}
