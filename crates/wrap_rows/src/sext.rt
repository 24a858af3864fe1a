ghost use Rattle.std.specs.Prelude.{◌≡◌, ◌+◌, ◌^◌, ◌<◌, ◌≤◌, length};
ghost use Rattle.wrap_rows.specs.Piece.{put_from};
ghost use Rattle.wrap_rows.specs.Sext.{IsAt, ranges, CanTake, number, numbers};

use crate::blocks::{add_equation, add_sign, gap, greatest, is_marked, mark_of, power, sign_of};
use crate::{Piece, ValueVars, add_marks, add_sum, times, value_at};
use ir_meaning::Val;
use mix_system::System;
use std::alloc::Global;
use wx_base::NoMemory;

/// A sign extension from one width to another (LLVM Language Reference, `sext .. to`).
#[derive(Clone, Copy, Debug)]
pub struct Sext {
    pub from: u32,
    pub to: u32,
    pub a: ValueVars,
}

impl Piece for Sext {
    ghost use Rattle.wrap_rows.specs.Sext.{IsAt, ranges, layout, vars, CanTake, numbers, meaning};

    ghost is_at = { IsAt };

    ghost ranges = { ranges };

    ghost layout = { layout };

    ghost vars = { vars };

    ghost can_fill = { CanTake };

    ghost can_say = { CanTake };

    ghost numbers = { numbers };

    ghost meaning = { meaning };

    fn declare(&self, into: &mut System) -> Result<u32, NoMemory> {
        let first = into.add_var(0, greatest(self.to))?;
        into.add_var(0, 1)?;
        into.add_var(0, 1)?;
        Ok(first)
    }

    fn lay(&self, alloc: Global, first: u32, into: &mut System) -> Result<(), NoMemory> {
        let mark = first + 1;
        let sign = mark + 1;
        add_sign(alloc, into, self.from, self.a.number, sign)?;
        let parts = [
            times(1, self.a.number),
            times(gap(self.from, self.to), sign),
            times(-1, first),
        ];
        let row = add_sum(alloc, into, &parts)?;
        add_equation(alloc, into, row, 0)?;
        add_marks(alloc, into, mark, &[self.a.mark], &[])
    }

    fn fill(&self, first: u32, point: &mut [i128]) {
        self.put(first, point);
    }

    fn sound(&self, first: u32, point: &[i128]) -> Val {
        value_at(self.vars(first), point)
    }

    fn stays_calm(&self, _: u32) {}

    fn vars(&self, first: u32) -> ValueVars {
        ValueVars {
            number: first,
            mark: first + 1,
        }
    }
}

impl Sext {
    // Writes the numbers.
    fn put(&self, first: u32, point: &mut [i128])
        requires at { IsAt self.now first }
        requires known { first + length (ranges self.now) ≤ length point.old }
        requires few { length point.old < 2 ^ 31 }
        requires operands { CanTake self.now point.old }
        ensures { point.new ≡ put_from first (numbers self.now point.old) point.old }
    {
        let number = self.number(point);
        let mark = mark_of(is_marked(self.a, point));
        let sign = sign_of(self.from, point[self.a.number as usize]);
        let at = first as usize;
        point[at] = number;
        point[at + 1] = mark;
        point[at + 1 + 1] = sign;
    }

    // The number, by the operand's.
    fn number(&self, point: &[i128]) -> i128
        requires at { IsAt self.now (length point.now) }
        requires operand { CanTake self.now point.now }
        ensures { result ≡ number self.now point.now }
    {
        let a = point[self.a.number as usize];
        if a < power(self.from - 1) {
            a
        } else {
            a + gap(self.from, self.to)
        }
    }
}
