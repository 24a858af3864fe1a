ghost use Rattle.std.specs.Prelude.{◌≡◌, ◌*◌, ◌≤◌, length};
ghost use Rattle.std.specs.Int.Digits.{digits_of};
ghost use Rattle.mix_system.specs.Calm.{IsCalm};
ghost use Rattle.mix_system.specs.Tally.{halving_depth as depth_of};

use mix_system::System;

/// How often the ranges of a system can be halved.
pub(crate) fn halving_depth(system: &System) -> u64
    requires { IsCalm system.now }
    ensures { result ≡ depth_of system.now }
{
    let mut depth = 0;
    for var in 0..system.vars() {
        let (low, high) = system.range(var);
        depth += digits((high - low).unsigned_abs());
    }
    depth
}

// How many binary digits a number has.
fn digits(number: u128) -> u64
    ensures count { result ≡ length (digits_of 2 number) }
    ensures few { result ≤ 128 }
{
    let mut left = number;
    let mut count = 0;
    while left > 0 {
        left /= 2;
        count += 1;
    }
    count
}
