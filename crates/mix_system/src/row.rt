ghost use Rattle.std.specs.Prelude.{◌≡◌, ◌<◌, length, IfOk, IfErr, All};
ghost use Rattle.wx_num.specs.Excess.{Overflows};
ghost use Rattle.mix_system.specs.Row.{row_value, IsStepOf};

use std::alloc::Global;
use std::default::MadeWith;
use wx_num::{Excess, Num};

/// A variable with its coefficient.
#[derive(Clone, Copy, Debug, PartialEq, Eq)]
pub struct Part {
    pub coeff: i128,
    pub var: u32,
}

// What stands in the unused inline places of a row.
impl MadeWith<Global> for Part {
    fn made_with(_: Global) -> Part {
        Part { coeff: 0, var: 0 }
    }
}

/// The sum of a row's parts at a point, or the first step of it that would overflow.
pub(crate) fn row_sum(parts: &[Part], point: &[i128]) -> Result<i128, Excess>
    requires { All (λ part. part.var < length point.now) parts.now }
    ensures value { IfOk result (λ sum. sum ≡ row_value parts.now point.now) }
    ensures step { IfErr result (IsStepOf parts.now point.now) }
    ensures overflows { IfErr result Overflows }
{
    let mut sum = 0;
    for part in parts {
        let product = Num::mul(part.coeff, point[part.var as usize])?;
        sum = Num::add(sum, product)?;
    }
    Ok(sum)
}
