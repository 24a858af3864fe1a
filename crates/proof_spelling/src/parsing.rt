ghost use Rattle.std.specs.Prelude.{◌≡◌, ◌<◌, ◌≤◌, ◌∷◌, [], length, IfOk, MatchOption};
ghost use Rattle.proof_text.specs.Line.{read as said};
ghost use Rattle.proof_spelling.specs.Draft.{Comes, ReadComes, IsEnded};
ghost use Rattle.proof_spelling.specs.Spells.{line_len, lines};
ghost use Rattle.proof_spelling.specs.Fault.{IsParsed};

use crate::draft::{Draft, after_line, proof_of};
use proof_term::Proof;
use proof_text::{LineRead, read};
use std::alloc::Global;
use wx_base::NoMemory;

/// The first line with which a text begins no proof, counted from 1.
#[derive(Clone, Copy, Debug, PartialEq, Eq)]
pub struct TextFault {
    pub line: u64,
}

/// The proof that a text spells, or the first line that may not stand there or has a number out of
/// its range. A last line without a line feed is such a line, and the text's end is, where the
/// proof goes on behind it.
///
/// Whether a system has the terms and clauses that are named isn't asked, nor how many levels are
/// open.
pub fn parse(alloc: Global, text: &[u8]) -> Result<Result<Proof, TextFault>, NoMemory>
    ensures answer { IfOk result (IsParsed text.now) }
{
    let mut draft = Draft::Header;
    let mut number: u64 = 1;
    let mut left = text;
    while let Some((line, behind)) = first_line(left) {
        match goes_on(alloc, draft, line)? {
            Some(next) => draft = next,
            None => return Ok(Err(TextFault { line: number })),
        }
        let Some(later) = number.checked_add(1) else {
            return Err(NoMemory);
        };
        number = later;
        left = behind;
    }
    Ok(ended(draft, number, left))
}

// What is kept behind one line more, or that it may not stand there or has a number out of its
// range.
fn goes_on(alloc: Global, draft: Draft, bytes: &[u8]) -> Result<Option<Draft>, NoMemory>
    ensures { IfOk result (ReadComes draft (said bytes.now)) }
{
    let line = read(alloc, bytes)?;
    let LineRead::Fits(line) = line else {
        return Ok(None);
    };
    after_line(alloc, draft, line)
}

// The proof, where it has ended and nothing stands behind its last line feed.
fn ended(draft: Draft, number: u64, rest: &[u8]) -> Result<Proof, TextFault>
    ensures { IsEnded draft number rest.now result }
{
    if !rest.is_empty() {
        return Err(TextFault { line: number });
    }
    let Draft::End(opened) = draft else {
        return Err(TextFault { line: number });
    };
    Ok(proof_of(opened))
}

// The first line of some bytes, and what stands behind its line feed.
#[tactic(auto, using(crate::proofs::LineLaws::lines_first))]
fn first_line(bytes: &[u8]) -> Option<(&[u8], &[u8])>
    ensures { MatchOption result (lines bytes.now ≡ bytes.now ∷ [])
        (λ parts. (lines bytes.now ≡ parts.0.now ∷ lines parts.1.now) ×
        (length parts.1.now < length bytes.now)) }
{
    let (line, behind) = bytes.split_at(line_len(bytes));
    match behind {
        [] => None,
        [_, rest @ ..] => Some((line, rest)),
    }
}

// How many bytes stand before the first line feed.
fn line_len(bytes: &[u8]) -> usize
    ensures len { result ≡ line_len bytes.now }
    ensures within { result ≤ length bytes.now }
{
    bytes.iter().take_while(|byte| **byte != b'\n').count()
}
