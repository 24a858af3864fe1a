ghost use Rattle.std.specs.Prelude.{◌≡◌, ◌↔◌, ◌+ℤ◌, ◌*ℤ◌, IsOk, IfOk, IfErr, All};
ghost use Rattle.mix_system.specs.FarkasSum.{by_side, sum_op};
ghost use Rattle.proof_term.specs.Steps.{StaysWithin};
ghost use Rattle.leaf_check.specs.Steps.{product_steps, IsFirstExcess};

use mix_system::Side;
use wx_num::{Excess, Num};

// The sum with a product put to it on a side.
fn put_to(side: Side, sum: i128, product: i128) -> Result<i128, Excess>
    ensures value { IfOk result (λ new. new ≡ sum +ℤ by_side side product) }
    ensures within { IsOk result ↔ StaysWithin (record { op = sum_op side; x = sum; y = product }) }
    ensures excess { IfErr result (λ excess. excess ≡
        record { op = sum_op side; x = sum; y = product }) }
{
    match side {
        Side::Le => Num::add(sum, product),
        Side::Ge => Num::sub(sum, product),
    }
}

// The sum with a factor put to it so many times on a side.
pub(crate) fn put_product(side: Side, sum: i128, by: i128, factor: i128) -> Result<i128, Excess>
    ensures value { IfOk result (λ new. new ≡ sum +ℤ by_side side (by *ℤ factor)) }
    ensures stays { IfOk result (λ _. All StaysWithin (product_steps side sum by factor)) }
    ensures excess { IfErr result (IsFirstExcess (product_steps side sum by factor)) }
{
    match Num::mul(by, factor) {
        Ok(product) => put_to(side, sum, product),
        Err(excess) => Err(excess),
    }
}
