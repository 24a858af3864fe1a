ghost use Rattle.std.specs.Prelude.{◌≡◌, ◌≢◌, ◌≤◌, ◌^◌, pos, ◌*ℤ◌, unsigned_abs};
ghost use Rattle.std.specs.Int.{◌∣◌};

/// A number, other than 0, over a number that divides it.
pub(crate) fn quotient(number: i128, divisor: u128) -> i128
    requires nonzero { number ≢ pos 0 }
    requires divides { divisor ∣ unsigned_abs number }
    ensures { number ≡ result *ℤ pos divisor }
{
    // Only the least number has so large a divisor.
    if divisor == 1 << 127 {
        return -1;
    }
    number / divisor as i128
}
