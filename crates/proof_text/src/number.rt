ghost use Rattle.std.specs.Prelude.{◌≡◌, ◌^◌, ◌<◌, ◌≤◌, pos, neg_ℤ};
ghost use Rattle.std.specs.Option.{option_map, option_copied};
ghost use Rattle.proof_text.specs.Reading.{IfFits};
ghost use Rattle.proof_text.specs.Number.{without_minus, unsigned, natural, number, negative};

use crate::digits::{is_numeral, is_positive, value_of};
use crate::reading::Reading;

// The size of the least number of 128 bits.
const LEAST_SIZE: u128 = 1 << 127;

/// A number without a sign, below a limit.
#[tactic(auto, unfolding(crate::specs::Number::unsigned), using(crate::proofs::DigitLaws::digits_of_numeral))]
pub(crate) fn unsigned(digits: &[u8], limit: u128) -> Reading<u128>
    ensures reading { result ≡ unsigned limit digits.now }
    ensures below { IfFits result (λ value. value < limit) }
{
    if !is_numeral(digits) {
        return Reading::Malformed;
    }
    match value_of(digits) {
        Some(value) if value < limit => Reading::Fits(value),
        _ => Reading::Unfit,
    }
}

// What follows the sign of a number below 0.
fn without_minus(word: &[u8]) -> Option<&[u8]>
    ensures { option_copied result ≡ without_minus word.now }
{
    match word {
        [b'-', digits @ ..] => Some(digits),
        _ => None,
    }
}

/// A number from 0 up to a limit.
pub(crate) fn natural(word: &[u8], limit: u128) -> Reading<u128>
    ensures reading { result ≡ natural limit word.now }
    ensures below { IfFits result (λ value. value < limit) }
{
    let Some(digits) = without_minus(word) else {
        return unsigned(word, limit);
    };
    if is_positive(digits) {
        Reading::Unfit
    } else {
        Reading::Malformed
    }
}

/// A number of 128 bits.
pub(crate) fn number(word: &[u8]) -> Reading<i128>
    ensures { result ≡ number word.now }
{
    if let Some(digits) = without_minus(word) {
        return negative(digits);
    }
    match unsigned(word, LEAST_SIZE) {
        Reading::Fits(value) => Reading::Fits(value as i128),
        Reading::Unfit => Reading::Unfit,
        Reading::Malformed => Reading::Malformed,
    }
}

// The number below 0 with these digits.
fn negative(digits: &[u8]) -> Reading<i128>
    ensures { result ≡ negative digits.now }
{
    if !is_positive(digits) {
        return Reading::Malformed;
    }
    match unsigned(digits, LEAST_SIZE + 1) {
        Reading::Fits(size) => Reading::Fits(negated(size)),
        Reading::Unfit => Reading::Unfit,
        Reading::Malformed => Reading::Malformed,
    }
}

// The number of that size that isn't above 0.
fn negated(size: u128) -> i128
    requires { size ≤ 2 ^ 127 }
    ensures { result ≡ neg_ℤ (pos size) }
{
    if size == LEAST_SIZE {
        return i128::MIN;
    }
    -(size as i128)
}
