//! Why reading stopped.

ghost use Rattle.std.specs.Prelude.{◌≡◌};
ghost use Rattle.ll_grammar.specs.Places.{is_int_type, refused, at_type, at_result, starts_other, at_form, at_literal, word_refused, other_refused};

use crate::words::{are_digits, is_text, width_of};
use ll_token::TokenKind;
use wx_base::NoMemory;

/// What is wrong with the first token with which the grammar can't go on.
#[derive(Clone, Copy, Debug, PartialEq, Eq)]
pub enum Refusal {
    /// A word of LLVM, or a called function, that isn't read here.
    NotInProfile,
    /// An integer type that isn't one of `i1` to `i32`.
    BadWidth,
    /// A literal that isn't one of its type, or a range's second number that is its first.
    BadLiteral,
    /// Something else than a label behind a terminator.
    NoLabel,
    /// Any other token that may not stand at its place.
    Unexpected,
}

/// What could have stood where reading stopped.
#[derive(Clone, Copy, Debug, PartialEq, Eq)]
pub enum Place {
    /// A type, or one type alone.
    Type,
    /// The type of a result behind a `range`.
    RangedResult,
    /// A word of a statement, a predicate, or a word of a parameter.
    Keyword,
    /// The word behind `%r =`.
    Form,
    /// An operand or a number.
    Literal,
    /// The name of a called function.
    Callee,
    /// A label, or the end of the function, behind a terminator.
    BehindEnd,
    /// Anything else.
    Other,
}

/// Why a piece of the grammar wasn't read.
#[derive(Clone, Copy, Debug, PartialEq, Eq)]
pub enum Stop {
    /// The first token that is left can't stand there.
    Refused(Refusal),
    /// The tokens ended where more were wanted.
    RanOut,
    NoMemory,
}

impl From<NoMemory> for Stop {
    ghost use Rattle.std.specs.Prelude.{◌≡◌};
    ghost use Rattle.ll_grammar.specs.declared.stop.Stop.TheVariants as stop;

    ghost from_gives = { λ _ s. s ≡ stop.NoMemory };

    fn from(_: NoMemory) -> Self {
        Stop::NoMemory
    }
}

/// Whether a word is `i` and digits.
fn is_int_type(word: &[u8]) -> bool
    ensures { result ≡ is_int_type word.now }
{
    match word {
        [b'i', digits @ ..] => are_digits(digits),
        _ => false,
    }
}

#[tactic(auto, unfolding(crate::specs::Places::at_type))]
fn at_type(word: &[u8]) -> Refusal
    ensures { result ≡ at_type word.now }
{
    if width_of(word).is_some() {
        Refusal::Unexpected
    } else if is_int_type(word) {
        Refusal::BadWidth
    } else {
        Refusal::NotInProfile
    }
}

#[tactic(auto, unfolding(crate::specs::Places::at_result))]
fn at_result(word: &[u8]) -> Refusal
    ensures { result ≡ at_result word.now }
{
    if is_text(word, b"void") {
        Refusal::Unexpected
    } else {
        at_type(word)
    }
}

#[tactic(auto, unfolding(crate::specs::Places::starts_other))]
fn starts_other(word: &[u8]) -> bool
    ensures { result ≡ starts_other word.now }
{
    is_text(word, b"ret")
        || is_text(word, b"unreachable")
        || is_text(word, b"br")
        || is_text(word, b"switch")
        || is_text(word, b"phi")
}

#[tactic(auto, unfolding(crate::specs::Places::at_form))]
fn at_form(word: &[u8]) -> Refusal
    ensures { result ≡ at_form word.now }
{
    if starts_other(word) {
        Refusal::Unexpected
    } else {
        Refusal::NotInProfile
    }
}

#[tactic(auto, unfolding(crate::specs::Places::at_literal))]
fn at_literal(word: &[u8]) -> Refusal
    ensures { result ≡ at_literal word.now }
{
    if is_text(word, b"true") || is_text(word, b"false") {
        Refusal::BadLiteral
    } else if is_text(word, b"poison") {
        Refusal::Unexpected
    } else {
        Refusal::NotInProfile
    }
}

/// The fault of a word at a place.
fn word_refused(place: Place, word: &[u8]) -> Refusal
    ensures { result ≡ word_refused place word.now }
{
    match place {
        Place::Type => at_type(word),
        Place::RangedResult => at_result(word),
        Place::Keyword => Refusal::NotInProfile,
        Place::Form => at_form(word),
        Place::Literal => at_literal(word),
        Place::BehindEnd => Refusal::NoLabel,
        Place::Callee | Place::Other => Refusal::Unexpected,
    }
}

/// The fault of another token at a place.
fn other_refused(place: Place, kind: TokenKind) -> Refusal
    ensures { result ≡ other_refused place kind }
{
    match (place, kind) {
        (Place::Literal, TokenKind::Number) => Refusal::BadLiteral,
        (Place::Callee, TokenKind::Global) => Refusal::NotInProfile,
        (Place::BehindEnd, _) => Refusal::NoLabel,
        _ => Refusal::Unexpected,
    }
}

/// The fault of a token at a place where it may not stand.
#[tactic(auto, unfolding(crate::specs::Places::refused))]
pub fn refused(place: Place, kind: TokenKind, text: &[u8]) -> Refusal
    ensures { result ≡ refused place kind text.now }
{
    match kind {
        TokenKind::Word => word_refused(place, text),
        _ => other_refused(place, kind),
    }
}
