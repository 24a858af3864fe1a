//! The function of a file that has a name.

ghost use Rattle.std.specs.Prelude.{◌≡◌, ◌<◌, ◌^◌, ◌↔◌, ℕ, List, IsTrue, IfOk, length, drop};
ghost use Rattle.ll_reader.specs.FileLines.{IsAt, lines, first_line};
ghost use Rattle.ll_reader.specs.DefineLine.{IsNamed};
ghost use Rattle.ll_reader.specs.Functions.{Finds, IsNextFunction, IsSoFar, LiesInFile};

use crate::define_line::is_named;
use crate::lines::{LineKind, line_len, lines_before};
use std::alloc::Global;
use wx_base::{Name, NoMemory};

/// The text of a function in a file, without the `}` that closes it. Lines are counted from 1.
#[derive(Clone, Copy)]
pub struct Section {
    /// The place of its define line.
    pub start: usize,
    /// The place of its `}`, or the end of the file.
    pub end: usize,
    /// The define line.
    pub line: u32,
    /// The line that its `}` begins.
    pub closing_line: u32,
}

/// What a file has under a name.
#[derive(Clone, Copy)]
pub enum Found {
    Nowhere,
    Twice,
    /// One function, which no line closes.
    Unclosed,
    Closed(Section),
}

/// The next function behind the first lines of a file, which have `at` bytes.
fn next_section(text: &[u8], at: usize, before: u32) -> Option<Section>
    requires short { length text.now < 2 ^ 31 }
    requires line_end { IsAt text.now before at }
    ensures { IsNextFunction text.now before result }
{
    let (_, rest) = text.split_at(at);
    let outside = lines_before(LineKind::Define, rest);
    let (_, from) = rest.split_at(outside.len);
    if from.is_empty() {
        return None;
    }
    let first = line_len(from);
    let (_, behind) = from.split_at(first);
    let inside = lines_before(LineKind::Closing, behind);
    let start = at + outside.len;
    let line = before + outside.lines + 1;
    Some(Section {
        start,
        end: start + first + inside.len,
        line,
        closing_line: line + inside.lines + 1,
    })
}

/// Whether the define line of a function has the name.
fn has_name(alloc: Global, text: &[u8], start: usize, name: &Name) -> Result<bool, NoMemory>
    requires short { length text.now < 2 ^ 31 }
    requires within { start < length text.now }
    ensures { IfOk result (λ is. IsTrue is ↔ IsNamed (first_line (drop start text.now)) name.now) }
{
    let (_, from) = text.split_at(start);
    let (line, _) = from.split_at(line_len(from));
    is_named(alloc, line, name)
}

/// What was found once the whole file was looked at.
fn outcome(text: &[u8], found: Option<Section>) -> Found
    ensures { (name : List ℕ) → IsSoFar text.now name (length (lines text.now)) found
        → Finds text.now name result × LiesInFile text.now result }
{
    let Some(section) = found else {
        return Found::Nowhere;
    };
    if section.end < text.len() {
        Found::Closed(section)
    } else {
        Found::Unclosed
    }
}

/// Finds the function with a name. A function begins at a define line and ends at the next line that `}` begins;
/// a define line inside its text is passed over. One pass over the text.
pub fn find(alloc: Global, text: &[u8], name: &Name) -> Result<Found, NoMemory>
    requires { length text.now < 2 ^ 31 }
    ensures finds { IfOk result (Finds text.now name.now) }
    ensures within { IfOk result (LiesInFile text.now) }
{
    let mut found = None;
    let mut at = 0;
    let mut before = 0;
    while let Some(section) = next_section(text, at, before) {
        at = section.end;
        before = section.closing_line - 1;
        if !has_name(alloc, text, section.start, name)? {
            continue;
        }
        if found.is_some() {
            return Ok(Found::Twice);
        }
        found = Some(section);
    }
    Ok(outcome(text, found))
}
