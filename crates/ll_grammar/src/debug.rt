//! Lines that have no meaning where a statement may start: debug records, and calls of debug functions.

ghost use Rattle.std.specs.Prelude.{◌≡◌, All, ◌≤◌, IfOk, length};
ghost use Rattle.ll_token.specs.Scan.{IsTokenOf};
ghost use Rattle.ll_grammar.specs.Tokens.{is_kind, has_prefix, line_len, names_debug, is_word, is_before_call, begins_call, is_record, starts_debug, is_debug_line};

use crate::naming::held_name;
use crate::words::is_text;
use ll_token::{Token, TokenKind};
use std::alloc::Global;
use wx_base::NoMemory;

/// Whether the bytes begin with the prefix.
#[tactic(auto, unfolding(crate::specs::Tokens::has_prefix))]
pub fn has_prefix(prefix: &[u8], bytes: &[u8]) -> bool
    ensures { result ≡ has_prefix prefix.now bytes.now }
{
    bytes.starts_with(prefix)
}

/// Whether these are one kind.
pub fn is_kind(kind: TokenKind, other: TokenKind) -> bool
    ensures { result ≡ is_kind kind other }
{
    kind == other
}

/// How many tokens at the front stand in the line.
#[tactic(auto, unfolding(crate::specs::Tokens::line_len))]
pub fn line_len(line: u32, tokens: &[Token]) -> usize
    ensures len { result ≡ line_len line tokens.now }
    ensures within { result ≤ length tokens.now }
{
    tokens.iter().take_while(|token| token.line == line).count()
}

/// Whether the first global name is that of a debug function.
fn names_debug(alloc: Global, text: &[u8], line: &[Token]) -> Result<bool, NoMemory>
    requires { All (IsTokenOf text.now) line.now }
    ensures { IfOk result (λ is. is ≡ names_debug text.now line.now) }
{
    for token in line {
        if is_kind(token.kind, TokenKind::Global) {
            let name = held_name(alloc, text, token)?;
            return Ok(has_prefix(b"llvm.dbg.", name.bytes()));
        }
    }
    Ok(false)
}

fn is_word(word: &[u8], text: &[u8], token: &Token) -> bool
    requires { IsTokenOf text.now token.now }
    ensures { result ≡ is_word word.now text.now token.now }
{
    token.kind == TokenKind::Word && is_text(token.bytes(text), word)
}

/// Whether a token is a word that may stand before `call`.
#[tactic(auto, unfolding(crate::specs::Tokens::is_before_call))]
fn is_before_call(text: &[u8], token: &Token) -> bool
    requires { IsTokenOf text.now token.now }
    ensures { result ≡ is_before_call text.now token.now }
{
    is_word(b"tail", text, token)
        || is_word(b"musttail", text, token)
        || is_word(b"notail", text, token)
}

/// Whether the line begins with `call`, or with a word before it and `call`.
#[tactic(auto, unfolding(crate::specs::Tokens::begins_call))]
fn begins_call(text: &[u8], line: &[Token]) -> bool
    requires { All (IsTokenOf text.now) line.now }
    ensures { result ≡ begins_call text.now line.now }
{
    match line {
        [] => false,
        [first] => is_word(b"call", text, first),
        [first, second, ..] => {
            is_word(b"call", text, first)
                || (is_before_call(text, first) && is_word(b"call", text, second))
        }
    }
}

/// Whether the line begins with a debug record.
#[tactic(auto, unfolding(crate::specs::Tokens::is_record))]
fn is_record(text: &[u8], line: &[Token]) -> bool
    requires { All (IsTokenOf text.now) line.now }
    ensures { result ≡ is_record text.now line.now }
{
    match line {
        [] => false,
        [first, ..] => first.kind == TokenKind::Hash && has_prefix(b"#dbg_", first.bytes(text)),
    }
}

/// Whether a line without a meaning may begin with a token of this kind.
pub fn starts_debug(kind: TokenKind) -> bool
    ensures { result ≡ starts_debug kind }
{
    is_kind(kind, TokenKind::Hash) || is_kind(kind, TokenKind::Word)
}

/// Whether a line, from its first token on, is a debug record or a call of a debug function.
#[tactic(auto, unfolding(crate::specs::Tokens::is_debug_line))]
pub fn is_debug_line(alloc: Global, text: &[u8], line: &[Token]) -> Result<bool, NoMemory>
    requires { All (IsTokenOf text.now) line.now }
    ensures { IfOk result (λ is. is ≡ is_debug_line text.now line.now) }
{
    if is_record(text, line) {
        return Ok(true);
    }
    if !begins_call(text, line) {
        return Ok(false);
    }
    names_debug(alloc, text, line)
}
