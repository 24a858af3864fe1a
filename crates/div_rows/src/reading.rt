// The signed reading of a number.
ghost use Rattle.std.specs.Prelude.{◌≡◌, ◌-◌, ◌^◌, ◌≤ℤ◌, ◌<ℤ◌, pos, neg_ℤ, unsigned_abs};
ghost use Rattle.ir_meaning.specs.Whole.{IsWidth, signed};
ghost use Rattle.wrap_rows.specs.Vars.{IsNumber};

use wrap_rows::power;

/// The signed reading of a number of the width.
pub fn signed_of(width: u32, number: i128) -> i128
    requires width { IsWidth width }
    requires number { IsNumber width number }
    ensures value { result ≡ signed width (unsigned_abs number) }
    ensures least { neg_ℤ (pos (2 ^ (width - 1))) ≤ℤ result }
    ensures greatest { result <ℤ pos (2 ^ (width - 1)) }
{
    if number < power(width - 1) {
        number
    } else {
        number - power(width)
    }
}
