ghost use Rattle.std.specs.Prelude.{◌≡◌, ◌<◌, length};
ghost use Rattle.wrap_rows.specs.Vars.{IsValue, value_at};

use ir_meaning::Val;

/// Where a value lies in a system: the variable of its number, and the variable of its mark, which is 1 where the value is poison.
#[derive(Clone, Copy, Debug, PartialEq, Eq)]
pub struct ValueVars {
    pub number: u32,
    pub mark: u32,
}

/// The value that number and mark stand for at a point.
pub fn value_at(vars: ValueVars, point: &[i128]) -> Val
    requires number { vars.number < length point.now }
    requires mark { vars.mark < length point.now }
    requires value { IsValue 32 vars point.now }
    ensures { result ≡ value_at vars point.now }
{
    if point[vars.mark as usize] == 1 {
        Val::Poison
    } else {
        Val::Num(point[vars.number as usize] as u32)
    }
}
