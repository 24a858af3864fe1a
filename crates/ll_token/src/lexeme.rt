//! The token at the front of some bytes, or the fault that stands there instead.

ghost use Rattle.std.specs.Prelude.{◌≡◌, ◌≤◌, ◌<◌, IfOk, length};
ghost use Rattle.ll_token.specs.Reading as reading;

use crate::bytes::{begins_with, inner_len, is_mark, is_number, is_run_byte, run_len};
use crate::escapes::bad_escape;
use crate::token::{FaultKind, TokenKind};

/// A token at the front: its kind, and how many bytes it has.
#[derive(Clone, Copy)]
pub struct Lexeme {
    pub kind: TokenKind,
    pub len: usize,
}

/// A fault at the front, and how many bytes stand before its place.
#[derive(Clone, Copy)]
pub struct Flaw {
    pub kind: FaultKind,
    pub offset: usize,
}

const BAD_BYTE: Flaw = Flaw {
    kind: FaultKind::BadByte,
    offset: 0,
};

/// How many bytes stand between the quotes of a string, of which `bytes` are those behind the first
/// quote; `lead` is how many bytes of the token stand before them.
#[tactic(auto, unfolding(crate::specs::Reading::inside_at))]
fn inside_at(lead: usize, bytes: &[u8]) -> Result<usize, Flaw>
    requires { lead ≤ 2 }
    ensures reads { result ≡ reading.inside_at lead bytes.now }
    ensures bound { IfOk result (λ len. len < length bytes.now) }
{
    let len = inner_len(bytes);
    let (inner, after) = bytes.split_at(len);
    if !begins_with(after, b'"') {
        return Err(Flaw {
            kind: FaultKind::OpenString,
            offset: 0,
        });
    }
    match bad_escape(inner) {
        None => Ok(len),
        Some(place) => Err(Flaw {
            kind: FaultKind::BadEscape,
            offset: lead + place,
        }),
    }
}

#[tactic(auto, unfolding(crate::specs::Reading::bare_name))]
fn bare_name(kind: TokenKind, bytes: &[u8]) -> Result<Lexeme, Flaw>
    ensures { result ≡ reading.bare_name kind bytes.now }
{
    let len = run_len(bytes);
    if len == 0 {
        return Err(BAD_BYTE);
    }
    Ok(Lexeme { kind, len: len + 1 })
}

#[tactic(auto, unfolding(crate::specs::Reading::quoted_name))]
fn quoted_name(kind: TokenKind, bytes: &[u8]) -> Result<Lexeme, Flaw>
    ensures { result ≡ reading.quoted_name kind bytes.now }
{
    let len = inside_at(2, bytes)?;
    if len == 0 {
        return Err(BAD_BYTE);
    }
    Ok(Lexeme { kind, len: len + 3 })
}

/// A name, of which `bytes` are those behind its `%` or `@`.
#[tactic(auto, unfolding(crate::specs::Reading::name_at))]
pub fn name_at(kind: TokenKind, bytes: &[u8]) -> Result<Lexeme, Flaw>
    ensures { result ≡ reading.name_at kind bytes.now }
{
    if begins_with(bytes, b'"') {
        quoted_name(kind, &bytes[1..])
    } else {
        bare_name(kind, bytes)
    }
}

/// A string or a quoted label, of which `bytes` are those behind its first quote.
#[tactic(auto, unfolding(crate::specs::Reading::string_at))]
fn string_at(bytes: &[u8]) -> Result<Lexeme, Flaw>
    ensures { result ≡ reading.string_at bytes.now }
{
    let len = inside_at(1, bytes)?;
    if !begins_with(&bytes[len + 1..], b':') {
        return Ok(Lexeme {
            kind: TokenKind::String,
            len: len + 2,
        });
    }
    if len == 0 {
        return Err(BAD_BYTE);
    }
    Ok(Lexeme {
        kind: TokenKind::Label,
        len: len + 3,
    })
}

/// A label, a number or a word, which begins with a run.
#[tactic(auto, unfolding(crate::specs::Reading::run_at))]
fn run_at(bytes: &[u8]) -> Result<Lexeme, Flaw>
    ensures { result ≡ reading.run_at bytes.now }
{
    let len = run_len(bytes);
    let (run, after) = bytes.split_at(len);
    if begins_with(after, b':') {
        return Ok(Lexeme {
            kind: TokenKind::Label,
            len: len + 1,
        });
    }
    let kind = if is_number(run) {
        TokenKind::Number
    } else {
        TokenKind::Word
    };
    Ok(Lexeme { kind, len })
}

/// The token at the front, or the fault that stands there.
#[tactic(auto, unfolding(crate::specs::Reading::lexeme_at))]
pub fn lexeme_at(bytes: &[u8]) -> Result<Lexeme, Flaw>
    ensures { result ≡ reading.lexeme_at bytes.now }
{
    let [first, rest @ ..] = bytes else {
        return Err(BAD_BYTE);
    };
    match *first {
        b'%' => name_at(TokenKind::Local, rest),
        b'@' => name_at(TokenKind::Global, rest),
        b'"' => string_at(rest),
        b'!' => Ok(Lexeme {
            kind: TokenKind::Meta,
            len: run_len(rest) + 1,
        }),
        b'#' => bare_name(TokenKind::Hash, rest),
        byte if is_run_byte(byte) => run_at(bytes),
        byte if is_mark(byte) => Ok(Lexeme {
            kind: TokenKind::Mark,
            len: 1,
        }),
        _ => Err(BAD_BYTE),
    }
}
