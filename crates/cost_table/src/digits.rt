ghost use Rattle.std.specs.Prelude.{◌≡◌, ◌^◌, ◌<◌, ◌≤◌, ℕ, length, Some, None, nat_lt, IfSome, if◌then◌else◌};
ghost use Rattle.std.specs.Fmt.{decimal};
ghost use Rattle.std.specs.List.{AllPass};
ghost use Rattle.std.specs.Str.Parse.{digits_value};
ghost use Rattle.cost_table.specs.Digits.{is_digit, are_digits, begins_with_zero, is_numeral};

// Each cost is below this.
const COST_LIMIT: u64 = 1 << 32;

fn are_digits(bytes: &[u8]) -> bool
    ensures { result ≡ are_digits bytes.now }
{
    bytes.iter().all(|byte| byte.is_ascii_digit())
}

fn begins_with_zero(bytes: &[u8]) -> bool
    ensures { result ≡ begins_with_zero bytes.now }
{
    matches!(bytes, [b'0', ..])
}

// Whether the bytes are digits, one at least, without a leading zero.
#[tactic(auto, unfolding(crate::specs::Digits::is_numeral))]
fn is_numeral(bytes: &[u8]) -> bool
    ensures { result ≡ is_numeral bytes.now }
{
    if !are_digits(bytes) {
        return false;
    }
    if begins_with_zero(bytes) {
        return bytes.len() == 1;
    }
    !bytes.is_empty()
}

// The value of digits, where it is below the limit.
fn value_of(digits: &[u8], limit: u64) -> Option<u64>
    requires digits { AllPass is_digit digits.now }
    requires limit { limit ≤ 2 ^ 32 }
    requires some { 0 < length digits.now }
    ensures below { IfSome result (λ n. n < limit) }
    ensures value { let value = digits_value 10 digits.now in
        result ≡ (if nat_lt value limit then Some value else None) }
{
    let mut value = 0;
    for digit in digits {
        value = 10 * value + u64::from(*digit - b'0');
        if value >= limit {
            return None;
        }
    }
    Some(value)
}

/// The cost that a decimal from 0 to 4294967295 without leading zeros writes, `None` for all other bytes.
pub fn cost_of(digits: &[u8]) -> Option<u32>
    ensures found { IfSome result (λ cost. digits.now ≡ decimal cost) }
    ensures only { (cost : ℕ) → cost < 2 ^ 32 → digits.now ≡ decimal cost → result ≡ Some cost }
{
    if !is_numeral(digits) {
        return None;
    }
    let value = value_of(digits, COST_LIMIT)?;
    Some(value as u32)
}
