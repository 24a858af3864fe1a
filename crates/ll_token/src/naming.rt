//! The names that tokens hold.

ghost use Rattle.std.specs.Prelude.{◌≡◌, ◌<◌, ℕ, List, IfOk, IfSome, IsTrue, Some, length};
ghost use Rattle.ll_token.specs.Names.{Writes};
ghost use Rattle.ll_token.specs.Reading.{body_of};
ghost use Rattle.ll_token.specs.Lexemes.{has_name};
ghost use Rattle.ll_token.specs.Scan.{IsTokenOf, GivesName, IsLocalName};

use crate::bytes::{begins_with, without_first, without_last};
use crate::escapes::unescaped;
use crate::lexeme::name_at;
use crate::token::{Token, TokenKind};
use std::alloc::Global;
use wx_base::{Name, NoMemory};

/// The name that is written by a run or a string.
fn written_name(alloc: Global, body: &[u8]) -> Result<Name, NoMemory>
    requires { (after name : List ℕ) × Writes body.now after name }
    ensures { IfOk result (λ name. (after other : List ℕ) → Writes body.now after other
        → name ≡ other) }
{
    if begins_with(body, b'"') {
        unescaped(alloc, without_last(without_first(body)))
    } else {
        Name::new(alloc, body)
    }
}

/// A token's bytes without its `%`, `@` or `:`.
fn body_of(kind: TokenKind, bytes: &[u8]) -> &[u8]
    requires { 0 < length bytes.now }
    ensures { result.now ≡ body_of kind bytes.now }
{
    match kind {
        TokenKind::Local | TokenKind::Global => without_first(bytes),
        TokenKind::Label => without_last(bytes),
        _ => bytes,
    }
}

/// The name that a `Local`, `Global`, `Label` or `String` of a text holds: its bytes without the `%` or
/// `@`, the quotes and the label's `:`, and with its escapes replaced.
pub fn name_of(alloc: Global, text: &[u8], token: &Token) -> Result<Name, NoMemory>
    requires of_text { IsTokenOf text.now token.now }
    requires named { IsTrue (has_name token.now.kind) }
    ensures name { IfOk result (GivesName text.now token.now) }
    ensures only { (name : List ℕ) → GivesName text.now token.now name
        → IfOk result (λ found. found ≡ name) }
{
    written_name(alloc, body_of(token.kind, token.bytes(text)))
}

/// The name of a text that is one local name and nothing else; `None` exactly where it isn't.
pub fn local_name(alloc: Global, text: &[u8]) -> Result<Option<Name>, NoMemory>
    ensures found { IfOk result (λ found. IfSome found (IsLocalName text.now)) }
    ensures only { (name : List ℕ) → IsLocalName text.now name
        → IfOk result (λ found. found ≡ Some name) }
{
    if !begins_with(text, b'%') {
        return Ok(None);
    }
    let body = without_first(text);
    let Ok(lexeme) = name_at(TokenKind::Local, body) else {
        return Ok(None);
    };
    if lexeme.len != text.len() {
        return Ok(None);
    }
    Ok(Some(written_name(alloc, body)?))
}
