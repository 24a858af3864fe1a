ghost use Rattle.std.specs.Prelude.{◌≡◌, ◌↔◌, ◌<◌, ◌≤◌, ◌^◌, ℕ, All, Some, IsTrue, length, IfOk, IfSome, MatchOption, MatchResult};
ghost use Rattle.std.specs.Fmt.{decimal};
ghost use Rattle.command_words.specs.Arguments.{IsNumber, IsTaken, IsTakenAs, AreArguments, IsFirstBad, widths_of};

use itoa::Buffer;
use ll_tree::Param;
use std::alloc::Global;
use wx_base::{Arg, Args, Name, NoMemory, Sequence};

/// The arguments that words give to parameters: each a decimal without leading zeros, below 2 to the power of the
/// parameter's width. A range of the parameter bars none of them.
///
/// Else the place, counted from 0, of the first word that is no such number or has no parameter, or, where each is one,
/// how many words there are, as these are too few.
pub fn arguments_of(
    alloc: Global,
    params: &[Param],
    words: &[Name],
) -> Result<Result<Args, u32>, NoMemory>
    requires few { length params.now < 2 ^ 32 }
    requires widths { All (λ param. param.width ≤ 32) params.now }
    ensures { IfOk result (λ answer. MatchResult answer
        (AreArguments (widths_of params.now) words.now)
        (IsFirstBad (widths_of params.now) words.now)) }
{
    let mut args = Sequence::new(alloc);
    for (place, word) in words.iter().enumerate() {
        match argument_at(params, place, word) {
            Some(arg) => args.push(arg)?,
            None => return Ok(Err(place as u32)),
        }
    }
    if args.len() == params.len() {
        Ok(Ok(args))
    } else {
        Ok(Err(args.len() as u32))
    }
}

// The argument that a word gives to the parameter at its place.
fn argument_at(params: &[Param], place: usize, word: &Name) -> Option<Arg>
    requires { All (λ param. param.width ≤ 32) params.now }
    ensures { MatchOption result (IsTaken (widths_of params.now) place word.now → ⊥)
        (λ arg. IsTakenAs (widths_of params.now) place word.now arg) }
{
    let param = params.get(place)?;
    argument_of(param.width, word.bytes())
}

fn argument_of(width: u32, word: &[u8]) -> Option<Arg>
    requires { width ≤ 32 }
    ensures { MatchOption result (IsNumber width word.now → ⊥)
        (λ arg. (arg.width ≡ width) × (word.now ≡ decimal arg.value)) }
{
    let value = number_of(word)?;
    if u64::from(value) < 1 << width {
        Some(Arg { width, value })
    } else {
        None
    }
}

// The number below 2^32 whose decimal the bytes are.
fn number_of(word: &[u8]) -> Option<u32>
    ensures found { IfSome result (λ number. word.now ≡ decimal number) }
    ensures only { (number : ℕ) → number < 2 ^ 32 → word.now ≡ decimal number
        → result ≡ Some number }
{
    match str::from_utf8(word) {
        Ok(text) => parse(text),
        Err(_) => None,
    }
}

fn parse(text: &str) -> Option<u32>
    ensures found { IfSome result (λ number. text.now ≡ decimal number) }
    ensures only { (number : ℕ) → number < 2 ^ 32 → text.now ≡ decimal number
        → result ≡ Some number }
{
    let Ok(number) = text.parse::<u32>() else {
        return None;
    };
    if is_decimal_of(text, number) {
        Some(number)
    } else {
        None
    }
}

// What is parsed may have a sign or leading zeros.
fn is_decimal_of(text: &str, number: u32) -> bool
    ensures { IsTrue result ↔ (text.now ≡ decimal number) }
{
    Buffer::new().format(number).as_bytes() == text.as_bytes()
}
