ghost use Rattle.std.specs.Prelude.{◌≡◌, ◌+◌, ◌-◌, ◌*◌, ◌^◌, ◌<◌, length, take, Option, Some, None, nat_lt, IsTrue, if◌then◌else◌};
ghost use Rattle.std.specs.List.{AllPass, list_all};
ghost use Rattle.std.specs.Str.Parse.{digits_value};
ghost use Rattle.proof_text.specs.Digits.{is_digit, are_digits, begins_with_zero, is_numeral, is_positive};

fn are_digits(bytes: &[u8]) -> bool
    ensures { result ≡ are_digits bytes.now }
{
    bytes.iter().all(|byte| byte.is_ascii_digit())
}

fn begins_with_zero(bytes: &[u8]) -> bool
    ensures { result ≡ begins_with_zero bytes.now }
{
    matches!(bytes, [b'0', ..])
}

// Whether the bytes are digits, one at least, without a leading zero.
#[tactic(auto, unfolding(crate::specs::Digits::is_numeral))]
pub(crate) fn is_numeral(bytes: &[u8]) -> bool
    ensures { result ≡ is_numeral bytes.now }
{
    if !are_digits(bytes) {
        return false;
    }
    if begins_with_zero(bytes) {
        return bytes.len() == 1;
    }
    !bytes.is_empty()
}

// Whether the bytes are digits, the first of which is not 0.
pub(crate) fn is_positive(bytes: &[u8]) -> bool
    ensures { result ≡ is_positive bytes.now }
{
    is_numeral(bytes) && !begins_with_zero(bytes)
}

// The number with one digit more, where it is below 2^128.
fn with_digit(value: u128, digit: u8) -> Option<u128>
    requires { IsTrue (is_digit digit) }
    ensures { result ≡ (if nat_lt (10 * value + (digit - 48)) (2 ^ 128)
        then Some (10 * value + (digit - 48)) else None) }
{
    value.checked_mul(10)?.checked_add(u128::from(digit - b'0'))
}

// The value of digits, where it is below 2^128.
pub(crate) fn value_of(digits: &[u8]) -> Option<u128>
    requires { AllPass is_digit digits.now }
    ensures { result ≡ (if nat_lt (digits_value 10 digits.now) (2 ^ 128)
        then Some (digits_value 10 digits.now) else None) }
{
    let mut value = 0;
    for digit in digits {
        value = with_digit(value, *digit)?;
    }
    Some(value)
}
