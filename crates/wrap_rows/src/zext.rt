ghost use Rattle.std.specs.Prelude.{◌≡◌, ◌+◌, ◌^◌, ◌<◌, ◌≤◌, length};
ghost use Rattle.wrap_rows.specs.Piece.{put_from};
ghost use Rattle.wrap_rows.specs.Zext.{IsAt, ranges, CanTake, numbers};

use crate::blocks::{add_equation, greatest, is_marked, mark_of, power};
use crate::{Piece, ValueVars, add_marks, add_sum, at_least, times, value_at};
use ir_meaning::Val;
use ll_tree::Flags;
use mix_system::{System, Term};
use std::alloc::Global;
use wx_base::NoMemory;

/// A zero extension from one width to another (LLVM Language Reference, `zext .. to`).
#[derive(Clone, Copy, Debug)]
pub struct Zext {
    pub flags: Flags,
    pub from: u32,
    pub to: u32,
    pub a: ValueVars,
}

impl Piece for Zext {
    ghost use Rattle.wrap_rows.specs.Zext.{IsAt, ranges, layout, vars, CanTake, numbers, meaning};

    ghost is_at = { IsAt };

    ghost ranges = { ranges };

    ghost layout = { layout };

    ghost vars = { vars };

    ghost can_fill = { CanTake };

    ghost can_say = { CanTake };

    ghost numbers = { numbers };

    ghost meaning = { meaning };

    fn declare(&self, into: &mut System) -> Result<u32, NoMemory> {
        let first = into.add_var(0, greatest(self.to))?;
        into.add_var(0, 1)?;
        Ok(first)
    }

    fn lay(&self, alloc: Global, first: u32, into: &mut System) -> Result<(), NoMemory> {
        let row = add_sum(alloc, into, &[times(1, self.a.number), times(-1, first)])?;
        add_equation(alloc, into, row, 0)?;
        let large = [at_least(Term::Var(self.a.number), power(self.from - 1))];
        if self.flags.nneg {
            add_marks(alloc, into, first + 1, &[self.a.mark], &large)
        } else {
            add_marks(alloc, into, first + 1, &[self.a.mark], &[])
        }
    }

    fn fill(&self, first: u32, point: &mut [i128]) {
        self.put(first, point);
    }

    fn sound(&self, first: u32, point: &[i128]) -> Val {
        value_at(self.vars(first), point)
    }

    fn stays_calm(&self, _: u32) {}

    fn vars(&self, first: u32) -> ValueVars {
        ValueVars {
            number: first,
            mark: first + 1,
        }
    }
}

impl Zext {
    // Writes the numbers.
    fn put(&self, first: u32, point: &mut [i128])
        requires at { IsAt self.now first }
        requires known { first + length (ranges self.now) ≤ length point.old }
        requires few { length point.old < 2 ^ 31 }
        requires operands { CanTake self.now point.old }
        ensures { point.new ≡ put_from first (numbers self.now point.old) point.old }
    {
        let a = point[self.a.number as usize];
        let is_poison = is_marked(self.a, point);
        let is_large = power(self.from - 1) <= a;
        let mark = mark_of(is_poison || (self.flags.nneg && is_large));
        point[first as usize] = a;
        point[first as usize + 1] = mark;
    }
}
