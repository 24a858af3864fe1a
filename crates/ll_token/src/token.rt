/// What a token is (LLVM Language Reference, "Identifiers", "Lexical format").
#[derive(Clone, Copy, Debug, PartialEq, Eq)]
pub enum TokenKind {
    /// `%` and a run, or `%` and a string that isn't empty. A run is the longest sequence of `-`,
    /// letters, `$`, `.`, `_` and digits.
    Local,
    /// `@` and a run, or `@` and a string that isn't empty.
    Global,
    /// A run, or a string that isn't empty, directly followed by `:`, which is part of the token.
    Label,
    /// A run that is an optional `-` and digits.
    Number,
    /// Any other run.
    Word,
    /// `"` to the next `"` in the same line. A backslash doesn't protect a quote.
    String,
    /// `!` and a run, or `!` alone.
    Meta,
    /// `#` and a run.
    Hash,
    /// One of `( ) { } [ ] , = * < > : |`.
    Mark,
}

/// A token of a text: its kind, its span in bytes, and its line.
#[derive(Clone, Copy, Debug, PartialEq, Eq)]
pub struct Token {
    pub kind: TokenKind,
    /// The place of its first byte.
    pub start: u32,
    /// The place behind its last byte.
    pub end: u32,
    /// The text's first line, plus the LFs before the token.
    pub line: u32,
}

impl Token {
    ghost use Rattle.std.specs.Prelude.{◌≡◌};
    ghost use Rattle.ll_token.specs.Scan.{IsTokenOf, text_of};

    /// The token's bytes, in the text that it is a token of.
    pub fn bytes<'a>(&self, text: &'a [u8]) -> &'a [u8]
        requires { IsTokenOf text.now self.now }
        ensures { result.now ≡ text_of text.now self.now }
    {
        &text[self.start as usize..self.end as usize]
    }
}

/// Why a text has no tokens.
#[derive(Clone, Copy, Debug, PartialEq, Eq)]
pub enum FaultKind {
    /// A byte of no token, a `%` or `@` without a run or string, a `#` without a run, or an empty
    /// quoted name or label.
    BadByte,
    /// A string has no end in its line, whatever it holds.
    OpenString,
    /// In a string that has an end, a backslash is followed by neither two hexadecimal digits nor
    /// another backslash.
    BadEscape,
}

/// The first fault of a text.
#[derive(Clone, Copy, Debug, PartialEq, Eq)]
pub struct TokenFault {
    pub kind: FaultKind,
    /// The backslash of a `BadEscape`; else the first byte of what would be a token, the `%` or `@`
    /// before a string included.
    pub place: u32,
    /// The text's first line, plus the LFs before the place.
    pub line: u32,
}
