//! What single words and numbers stand for.

ghost use Rattle.std.specs.Prelude.{◌≡◌, ◌<◌, ◌≤◌, ◌^◌, IfSome};
ghost use Rattle.std.specs.List.{list_all};
ghost use Rattle.std.specs.Str.{bytes_eq};
ghost use Rattle.std.specs.Char.{is_ascii_digit};
ghost use Rattle.ll_token.specs.Bytes.{are_digits};
ghost use Rattle.ll_grammar.specs.Words.{digits_width, width_of, value_below, negated, number_of, bit_of, literal_of};

use ll_token::TokenKind;

/// Whether these are the bytes.
pub fn is_text(text: &[u8], bytes: &[u8]) -> bool
    ensures { result ≡ bytes_eq text.now bytes.now }
{
    text == bytes
}

fn all_digits(bytes: &[u8]) -> bool
    ensures { result ≡ list_all is_ascii_digit bytes.now }
{
    bytes.iter().all(|byte| byte.is_ascii_digit())
}

/// Whether these are digits, one at least.
pub fn are_digits(bytes: &[u8]) -> bool
    ensures { result ≡ are_digits bytes.now }
{
    !bytes.is_empty() && all_digits(bytes)
}

#[tactic(auto, unfolding(crate::specs::Words::digits_width))]
fn digits_width(digits: &[u8]) -> Option<u32>
    ensures width { result ≡ digits_width digits.now }
    ensures few { IfSome result (λ width. width ≤ 32) }
{
    match digits {
        [one] if (b'1'..=b'9').contains(one) => Some(u32::from(*one - b'0')),
        [ten, one] if (b'1'..=b'9').contains(ten) && one.is_ascii_digit() => {
            let width = 10 * u32::from(*ten - b'0') + u32::from(*one - b'0');
            (width <= 32).then_some(width)
        }
        _ => None,
    }
}

/// The width of an integer type, `i1` to `i32`.
#[tactic(auto, unfolding(crate::specs::Words::width_of))]
pub fn width_of(word: &[u8]) -> Option<u32>
    ensures width { result ≡ width_of word.now }
    ensures few { IfSome result (λ width. width ≤ 32) }
{
    match word {
        [b'i', digits @ ..] => digits_width(digits),
        _ => None,
    }
}

/// The value of digits, where it is below the limit.
fn value_below(limit: u64, digits: &[u8]) -> Option<u64>
    requires some { 0 < limit }
    requires few { limit ≤ 2 ^ 32 }
    ensures value { result ≡ value_below limit 0 digits.now }
    ensures below { IfSome result (λ n. n < limit) }
{
    let mut value = 0;
    for digit in digits {
        value = 10 * value + u64::from(digit.saturating_sub(b'0'));
        if value >= limit {
            return None;
        }
    }
    Some(value)
}

/// How many numbers have this width.
fn count(width: u32) -> u64
    requires { width ≤ 32 }
    ensures value { result ≡ 2 ^ width }
    ensures some { 0 < result }
    ensures few { result ≤ 2 ^ 32 }
{
    1 << width
}

/// A number below 2^(width - 1) + 1 with its sign turned, as a number of this width.
fn negated(width: u32, value: u64) -> u32
    requires width { width ≤ 32 }
    requires value { value ≤ 2 ^ width }
    ensures { result ≡ negated width value }
{
    let count = count(width);
    ((count - value) % count) as u32
}

/// A Number as a number of this width, from -2^(width - 1) to 2^width - 1.
#[tactic(auto, unfolding(crate::specs::Words::number_of))]
fn number_of(width: u32, text: &[u8]) -> Option<u32>
    requires { width ≤ 32 }
    ensures { result ≡ number_of width text.now }
{
    let count = count(width);
    match text {
        [] => None,
        [b'-', digits @ ..] => {
            let value = value_below(count / 2 + 1, digits)?;
            Some(negated(width, value))
        }
        _ => Some(value_below(count, text)? as u32),
    }
}

/// `true` and `false`, where the width is 1.
#[tactic(auto, unfolding(crate::specs::Words::bit_of))]
fn bit_of(width: u32, word: &[u8]) -> Option<u32>
    ensures { result ≡ bit_of width word.now }
{
    if width != 1 {
        None
    } else if is_text(word, b"true") {
        Some(1)
    } else if is_text(word, b"false") {
        Some(0)
    } else {
        None
    }
}

/// The number below 2^width that a literal of this width stands for.
#[tactic(auto, unfolding(crate::specs::Words::literal_of))]
pub fn literal_of(width: u32, kind: TokenKind, text: &[u8]) -> Option<u32>
    requires { width ≤ 32 }
    ensures { result ≡ literal_of width kind text.now }
{
    match kind {
        TokenKind::Number => number_of(width, text),
        TokenKind::Word => bit_of(width, text),
        _ => None,
    }
}
