//! The tokens that are left to read.

ghost use Rattle.std.specs.Prelude.{◌≡◌, ◌+◌, ◌≤◌, List, All, drop, length, IfOk};
ghost use Rattle.ll_token.specs.Scan.{IsTokenOf};
ghost use Rattle.ll_token.specs.declared.token.Token.{Token};
ghost use Rattle.ll_grammar.specs.Tokens.{is_empty, seen, word_at, mark_at, kind_at, group_at, name_at, debug_at, line_at, text_at, behind_line, AreNamed};
ghost use Rattle.ll_grammar.specs.Reading.{Gives, stopped, literal_at};

use crate::debug::{has_prefix, is_debug_line, line_len, starts_debug};
use crate::naming::held_name;
use crate::stop::{Place, Stop, refused};
use crate::words::literal_of;
use ll_token::{Token, TokenKind};
use std::alloc::Global;
use std::marker::Model;
use wx_base::{Name, NoMemory};

/// The tokens of a text that are left to read. Contracts see them as a list.
#[derive(Drop)]
pub struct Cursor<'a> {
    text: &'a [u8],
    tokens: &'a [Token],
    // The line of the token before.
    line: u32,
}

impl<'a> Model for Cursor<'a> {
    ghost use Rattle.std.specs.Prelude.{List, All};
    ghost use Rattle.ll_token.specs.Scan.{IsTokenOf};
    ghost use Rattle.ll_grammar.specs.Tokens.{Tok, seen};

    ghost Value = { List Tok };

    ghost view = { λ it. seen it.text.now it.line it.tokens.now };

    ghost invariant = { λ it. All (IsTokenOf it.text.now) it.tokens.now };
}

impl<'a> Cursor<'a> {
    /// All tokens of a text, behind one that stands in the line `before`.
    #[tactic(auto, using(crate::proofs::CursorLaws::seen_named))]
    pub fn new(text: &'a [u8], tokens: &'a [Token], before: u32) -> Cursor<'a>
        requires { All (IsTokenOf text.now) tokens.now }
        ensures sees { result ≡ seen text.now before tokens.now }
        ensures named { AreNamed result }
    {
        Cursor {
            text,
            tokens,
            line: before,
        }
    }

    /// How many tokens are left.
    pub fn len(&self) -> usize
        ensures { result ≡ length self.now }
    {
        self.tokens.len()
    }

    /// Whether no token is left.
    #[tactic(auto, unfolding(crate::specs::Tokens::seen))]
    pub fn is_empty(&self) -> bool
        ensures { result ≡ is_empty self.now }
    {
        match self.tokens.first() {
            Some(_) => false,
            None => true,
        }
    }

    /// The word that comes next: no bytes where none does.
    #[tactic(auto, unfolding(crate::specs::Tokens::seen, crate::specs::Tokens::word_at))]
    pub fn word(&self) -> &'a [u8]
        ensures { result.now ≡ word_at self.now }
    {
        match self.tokens.first() {
            Some(token) if token.kind == TokenKind::Word => token.bytes(self.text),
            _ => &[],
        }
    }

    /// The line of the next token: 0 where none is left.
    #[tactic(auto, unfolding(crate::specs::Tokens::seen, crate::specs::Tokens::line_at))]
    pub fn line(&self) -> u32
        ensures { result ≡ line_at self.now }
    {
        match self.tokens.first() {
            Some(token) => token.line,
            None => 0,
        }
    }

    /// The bytes of the next token: none where none is left.
    #[tactic(auto, unfolding(crate::specs::Tokens::seen, crate::specs::Tokens::text_at))]
    pub fn text(&self) -> &'a [u8]
        ensures { result.now ≡ text_at self.now }
    {
        match self.tokens.first() {
            Some(token) => token.bytes(self.text),
            None => &[],
        }
    }

    /// Whether a token of this kind comes next.
    #[tactic(auto, unfolding(crate::specs::Tokens::seen, crate::specs::Tokens::kind_at))]
    pub fn is_kind(&self, kind: TokenKind) -> bool
        ensures { result ≡ kind_at kind self.now }
    {
        match self.tokens.first() {
            Some(token) => token.kind == kind,
            None => false,
        }
    }

    /// Whether this mark comes next.
    #[tactic(auto, unfolding(crate::specs::Tokens::seen, crate::specs::Tokens::mark_at))]
    pub fn is_mark(&self, byte: u8) -> bool
        ensures { result ≡ mark_at byte self.now }
    {
        match self.tokens.first() {
            Some(token) => token.kind == TokenKind::Mark
                && token.bytes(self.text) == [byte].as_slice(),
            None => false,
        }
    }

    /// Passes over the next token.
    #[tactic(auto, unfolding(crate::specs::Tokens::seen))]
    pub fn advance(&mut self)
        ensures { self.new ≡ drop 1 self.old }
    {
        if let [token, rest @ ..] = self.tokens {
            self.line = token.line;
            self.tokens = rest;
        }
    }

    /// Nothing that may stand at this place comes next.
    #[tactic(auto, unfolding(crate::specs::Tokens::seen))]
    pub fn stop<T: Drop>(&self, place: Place) -> Result<T, Stop>
        ensures { Gives result self.now (stopped place self.now) }
    {
        match self.tokens.first() {
            Some(token) => Err(Stop::Refused(refused(place, token.kind, token.bytes(self.text)))),
            None => Err(Stop::RanOut),
        }
    }

    /// Whether a group of attributes comes next: a `#` and what is no debug record.
    #[tactic(auto, unfolding(crate::specs::Tokens::seen, crate::specs::Tokens::group_at))]
    pub fn is_group(&self) -> bool
        ensures { result ≡ group_at self.now }
    {
        match self.tokens.first() {
            Some(token) => {
                token.kind == TokenKind::Hash && !has_prefix(b"#dbg_", token.bytes(self.text))
            }
            None => false,
        }
    }

    /// The number that the next token stands for as a literal of this width.
    #[tactic(auto, unfolding(crate::specs::Tokens::seen, crate::specs::Reading::literal_at))]
    pub fn next_literal(&self, width: u32) -> Option<u32>
        requires { width ≤ 32 }
        ensures { result ≡ literal_at width self.now }
    {
        let token = self.tokens.first()?;
        literal_of(width, token.kind, token.bytes(self.text))
    }

    /// The name that the next token holds: no bytes where it holds none.
    #[tactic(auto, unfolding(crate::specs::Tokens::seen, crate::specs::Tokens::name_at))]
    pub fn next_name(&self, alloc: Global) -> Result<Name, NoMemory>
        ensures { IfOk result (λ name. name ≡ name_at self.now) }
    {
        match self.tokens.first() {
            Some(token) => held_name(alloc, self.text, token),
            None => Name::new(alloc, &[]),
        }
    }

    /// Whether a line without a meaning begins here.
    #[tactic(auto, unfolding(crate::specs::Tokens::seen, crate::specs::Tokens::debug_at))]
    pub fn is_debug(&self, alloc: Global) -> Result<bool, NoMemory>
        ensures { IfOk result (λ is. is ≡ debug_at self.now) }
    {
        let Some(token) = self.tokens.first() else {
            return Ok(false);
        };
        if token.line == self.line || !starts_debug(token.kind) {
            return Ok(false);
        }
        let (line, _) = self.tokens.split_at(line_len(token.line, self.tokens));
        is_debug_line(alloc, self.text, line)
    }

    /// Passes over the next token and what follows it in its line.
    #[tactic(auto, unfolding(crate::specs::Tokens::seen, crate::specs::Tokens::line_at, crate::specs::Tokens::behind_line))]
    pub fn pass_line(&mut self)
        ensures { self.new ≡ behind_line (line_at self.old) (drop 1 self.old) }
    {
        if let [token, ..] = self.tokens {
            let (_, behind) = self.tokens.split_at(line_len(token.line, self.tokens));
            self.line = token.line;
            self.tokens = behind;
        }
    }
}
