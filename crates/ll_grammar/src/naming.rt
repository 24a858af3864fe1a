//! The names that tokens hold.

ghost use Rattle.std.specs.Prelude.{◌≡◌, IfOk};
ghost use Rattle.ll_token.specs.Lexemes.{has_name};
ghost use Rattle.ll_token.specs.Scan.{IsTokenOf, text_of};
ghost use Rattle.ll_grammar.specs.Tokens.{held_name};

use ll_token::{Token, TokenKind, name_of};
use std::alloc::Global;
use wx_base::{Name, NoMemory};

/// Whether tokens of this kind hold a name.
fn has_name(kind: TokenKind) -> bool
    ensures { result ≡ has_name kind }
{
    matches!(
        kind,
        TokenKind::Local | TokenKind::Global | TokenKind::Label | TokenKind::String
    )
}

/// The name that a token holds: no bytes where it holds none.
#[tactic(auto, unfolding(crate::specs::Tokens::held_name))]
pub fn held_name(alloc: Global, text: &[u8], token: &Token) -> Result<Name, NoMemory>
    requires { IsTokenOf text.now token.now }
    ensures { IfOk result (λ name. name ≡ held_name token.now.kind (text_of text.now token.now)) }
{
    if has_name(token.kind) {
        name_of(alloc, text, token)
    } else {
        Name::new(alloc, &[])
    }
}
