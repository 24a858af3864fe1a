ghost use Rattle.std.specs.Prelude.{◌≢◌, ℕ, pos, unsigned_abs, All};
ghost use Rattle.std.specs.Int.{◌∣◌};
ghost use Rattle.tableau_rows.specs.Reduction.{AreDivided};

use crate::Entry;
use crate::quotient::quotient;
use wx_num::Num;

/// The greatest common divisor of the coefficients.
pub(crate) fn common_divisor(entries: &[Entry]) -> u128
    ensures divides { All (λ entry. result ∣ unsigned_abs entry.coeff) entries.now }
    ensures greatest { (d : ℕ) → All (λ entry. d ∣ unsigned_abs entry.coeff) entries.now
        → d ∣ result }
{
    let mut divisor = 0;
    for entry in entries {
        divisor = Num::gcd(divisor, entry.coeff.unsigned_abs());
    }
    divisor
}

/// Divides each coefficient by a number that divides them all.
pub(crate) fn divided(entries: Vec<Entry>, divisor: u128) -> Vec<Entry>
    requires nonzero { All (λ entry. entry.coeff ≢ pos 0) entries.items }
    requires divides { All (λ entry. divisor ∣ unsigned_abs entry.coeff) entries.items }
    ensures { AreDivided divisor entries.items result.items }
{
    if divisor == 1 {
        return entries;
    }
    let mut entries = entries;
    for i in 0..entries.len() {
        let Entry { column, coeff } = entries[i];
        entries[i] = Entry {
            column,
            coeff: quotient(coeff, divisor),
        };
    }
    entries
}
