//! The tokens of a text, from left to right.

ghost use Rattle.std.specs.Prelude.{◌≡◌, ◌⊎◌, ◌<◌, ◌≤◌, ◌+◌, ◌^◌, ℕ, List, All, IfOk, IfErr, MatchResult, Ok, Err, length, take, drop};
ghost use Rattle.ll_token.specs.declared.token.Token.{Token};
ghost use Rattle.ll_token.specs.declared.token.TokenFault.{TokenFault};
ghost use Rattle.ll_token.specs.Bytes.{line_ends};
ghost use Rattle.ll_token.specs.Scan.{AreTokens, IsFirstFault, Follows, IsTokenOf, AreInOrder};

use crate::blanks::blanks_at;
use crate::lexeme::lexeme_at;
use crate::token::{Token, TokenFault};
use std::alloc::Global;
use wx_base::{NoMemory, Sequence};

/// What comes next behind a place: a token, or `None` where only white space and comments are left.
fn next_token(text: &[u8], at: usize, line: u32) -> Result<Option<Token>, TokenFault>
    requires within { at ≤ length text.now }
    requires short { length text.now < 2 ^ 31 }
    requires few_lines { line < 2 ^ 31 + at }
    ensures { (first_line : ℕ) → line ≡ first_line + line_ends (take at text.now)
        → Follows first_line (take at text.now) (drop at text.now) result }
{
    let (_, behind) = text.split_at(at);
    let blanks = blanks_at(behind);
    let start = at + blanks.len;
    let line = line + blanks.lines;
    let (_, rest) = behind.split_at(blanks.len);
    if rest.is_empty() {
        return Ok(None);
    }
    match lexeme_at(rest) {
        Ok(lexeme) => Ok(Some(Token {
            kind: lexeme.kind,
            start: start as u32,
            end: (start + lexeme.len) as u32,
            line,
        })),
        Err(flaw) => Err(TokenFault {
            kind: flaw.kind,
            place: (start + flaw.offset) as u32,
            line,
        }),
    }
}

fn scan(
    alloc: Global,
    text: &[u8],
    first_line: u32,
) -> Result<Result<Sequence<Token>, TokenFault>, NoMemory>
    requires short { length text.now < 2 ^ 31 }
    requires few_lines { first_line < 2 ^ 31 }
    ensures { IfOk result (λ answer.
        MatchResult answer (AreTokens text.now first_line) (IsFirstFault text.now first_line)) }
{
    let mut tokens = Sequence::new(alloc);
    let mut at = 0;
    let mut line = first_line;
    loop {
        match next_token(text, at, line) {
            Ok(Some(token)) => {
                at = token.end as usize;
                line = token.line;
                tokens.push(token)?;
            }
            Ok(None) => return Ok(Ok(tokens)),
            Err(fault) => return Ok(Err(fault)),
        }
    }
}

/// The tokens of a text whose first line has this number, or its first fault (LLVM Language Reference,
/// "Lexical format", "Identifiers"). White space is space, tab, CR and LF; a comment goes from a `;`
/// outside a string to the end of its line.
///
/// One pass over the text, in time linear in it; only the list of tokens takes memory. The outer error
/// is want of memory alone.
pub fn tokens(
    alloc: Global,
    text: &[u8],
    first_line: u32,
) -> Result<Result<Sequence<Token>, TokenFault>, NoMemory>
    requires short { length text.now < 2 ^ 31 }
    requires few_lines { first_line < 2 ^ 31 }

    // What is answered is so.
    ensures tokens { IfOk result (λ answer. IfOk answer (AreTokens text.now first_line)) }
    ensures fault { IfOk result (λ answer. IfErr answer (IsFirstFault text.now first_line)) }

    // What is so is answered.
    ensures only_tokens { (tokens : List Token) → AreTokens text.now first_line tokens
        → IfOk result (λ answer. answer ≡ Ok tokens) }
    ensures only_fault { (fault : TokenFault) → IsFirstFault text.now first_line fault
        → IfOk result (λ answer. answer ≡ Err fault) }

    // What a caller may rest on.
    ensures in_order { IfOk result (λ answer. IfOk answer (AreInOrder 0 (length text.now))) }
    ensures each { IfOk result (λ answer. IfOk answer (All (IsTokenOf text.now))) }
{
    scan(alloc, text, first_line)
}

/// A text has either one list of tokens or one first fault.
pub fn one_answer()
    ensures some { (text : List ℕ) (first_line : ℕ)
        → ((tokens : List Token) × AreTokens text first_line tokens)
        ⊎ ((fault : TokenFault) × IsFirstFault text first_line fault) }
    ensures tokens { (text : List ℕ) (first_line : ℕ) (one other : List Token)
        → AreTokens text first_line one → AreTokens text first_line other → one ≡ other }
    ensures fault { (text : List ℕ) (first_line : ℕ) (one other : TokenFault)
        → IsFirstFault text first_line one → IsFirstFault text first_line other → one ≡ other }
    ensures not_both { (text : List ℕ) (first_line : ℕ) (tokens : List Token) (fault : TokenFault)
        → AreTokens text first_line tokens → IsFirstFault text first_line fault → ⊥ }
{}
