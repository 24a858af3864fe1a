//! Escapes between the quotes of a string (LLVM Language Reference, "Identifiers").

ghost use Rattle.std.specs.Prelude.{◌≡◌, ◌<◌, ℕ, List, [], IfOk, IfSome, length};
ghost use Rattle.std.specs.Option.{option_map};
ghost use Rattle.ll_token.specs.Names.{StandsFor};
ghost use Rattle.ll_token.specs.Reading.{escaped, piece_at, bad_at};

use std::alloc::Global;
use wx_base::{Name, NoMemory};

/// The byte that two hexadecimal digits stand for.
fn escaped(high: u8, low: u8) -> Option<u8>
    ensures { result ≡ escaped high low }
{
    let high = char::from(high).to_digit(16)?;
    let low = char::from(low).to_digit(16)?;
    Some((16 * high + low) as u8)
}

/// The byte that is written at the front, and the bytes behind it. `None` where there is no byte, or a
/// backslash that begins no escape.
fn piece(bytes: &[u8]) -> Option<(u8, &[u8])>
    ensures { option_map (λ piece. (piece.0, piece.1.now)) result ≡ piece_at bytes.now }
{
    match bytes {
        [] => None,
        [b'\\', b'\\', rest @ ..] => Some((b'\\', rest)),
        [b'\\', high, low, rest @ ..] => Some((escaped(*high, *low)?, rest)),
        [b'\\', ..] => None,
        [byte, rest @ ..] => Some((*byte, rest)),
    }
}

/// The place of the first backslash that begins no escape, in the bytes between two quotes.
pub fn bad_escape(inner: &[u8]) -> Option<usize>
    ensures reads { result ≡ bad_at inner.now }
    ensures bound { IfSome result (λ place. place < length inner.now) }
{
    let mut rest = inner;
    while !rest.is_empty() {
        match piece(rest) {
            Some((_, after)) => rest = after,
            None => return Some(inner.len() - rest.len()),
        }
    }
    None
}

/// The name that the bytes between two quotes stand for.
pub fn unescaped(alloc: Global, inner: &[u8]) -> Result<Name, NoMemory>
    requires { (name : List ℕ) × StandsFor inner.now name [] }
    ensures { IfOk result (λ name. StandsFor inner.now name []) }
{
    let mut bytes = Vec::with_capacity(alloc, inner.len())?;
    let mut rest = inner;
    while let Some((byte, after)) = piece(rest) {
        bytes.push(byte)?;
        rest = after;
    }
    Ok(Name::from_vec(bytes))
}
