ghost use Rattle.std.specs.Prelude.{◌≡◌, ◌+◌, ◌^◌, ◌<◌, ◌≤◌, ◌++◌, map, length, OnOk};
ghost use Rattle.wrap_rows.specs.Normal.{clause_of};
ghost use Rattle.wrap_rows.specs.Piece.{put_from};
ghost use Rattle.wrap_rows.specs.Ranged.{IsAt, ranges, CanTake, numbers, between_clauses, around_clauses, is_outside};

use crate::blocks::mark_of;
use crate::{Piece, ValueVars, add_lits, at_least, at_most, value_at};
use ir_meaning::Val;
use mix_system::{System, Term};
use std::alloc::Global;
use wx_base::NoMemory;

/// A parameter with a range: poison where the argument isn't in it (LLVM Language Reference, "Parameter Attributes", `range`).
/// A low bound above the high one means the numbers from it on, and those below the high bound.
#[derive(Clone, Copy, Debug)]
pub struct Ranged {
    pub width: u32,
    pub low: u32,
    pub high: u32,
    /// The argument's number.
    pub number: u32,
}

impl Piece for Ranged {
    ghost use Rattle.wrap_rows.specs.Ranged.{IsAt, ranges, layout, vars, CanTake, numbers, meaning};

    ghost is_at = { IsAt };

    ghost ranges = { ranges };

    ghost layout = { layout };

    ghost vars = { vars };

    ghost can_fill = { CanTake };

    ghost can_say = { CanTake };

    ghost numbers = { numbers };

    ghost meaning = { meaning };

    fn declare(&self, into: &mut System) -> Result<u32, NoMemory> {
        into.add_var(0, 1)
    }

    fn lay(&self, alloc: Global, first: u32, into: &mut System) -> Result<(), NoMemory> {
        if self.low < self.high {
            self.add_between(alloc, first, into)
        } else {
            self.add_around(alloc, first, into)
        }
    }

    fn fill(&self, first: u32, point: &mut [i128]) {
        self.put(first, point);
    }

    fn sound(&self, first: u32, point: &[i128]) -> Val {
        value_at(self.vars(first), point)
    }

    fn stays_calm(&self, _: u32) {}

    fn vars(&self, first: u32) -> ValueVars {
        ValueVars {
            number: self.number,
            mark: first,
        }
    }
}

impl Ranged {
    // Writes the numbers.
    fn put(&self, first: u32, point: &mut [i128])
        requires at { IsAt self.now first }
        requires known { first + length (ranges self.now) ≤ length point.old }
        requires few { length point.old < 2 ^ 31 }
        requires operands { CanTake self.now point.old }
        ensures { point.new ≡ put_from first (numbers self.now point.old) point.old }
    {
        let mark = mark_of(self.is_outside(point[self.number as usize]));
        point[first as usize] = mark;
    }

    // The clauses where the low bound is the lesser.
    fn add_between(&self, alloc: Global, mark: u32, into: &mut System) -> Result<(), NoMemory>
        requires at { IsAt self.now mark }
        requires mark { mark < length into.old.ranges }
        requires room { length into.old.clauses + 3 < 2 ^ 31 }
        ensures { OnOk result (into.new ≡ record into.old {
          clauses = into.old.clauses
              ++ map clause_of (between_clauses self.now.number self.now.low self.now.high mark);
        }) }
    {
        let number = Term::Var(self.number);
        let (low, high) = (i128::from(self.low), i128::from(self.high));
        let up = at_least(Term::Var(mark), 1);
        let down = at_most(Term::Var(mark), 0);
        add_lits(
            alloc,
            into,
            &[down, at_most(number, low - 1), at_least(number, high)],
        )?;
        add_lits(alloc, into, &[up, at_least(number, low)])?;
        add_lits(alloc, into, &[up, at_most(number, high - 1)])
    }

    // The clauses where it isn't.
    fn add_around(&self, alloc: Global, mark: u32, into: &mut System) -> Result<(), NoMemory>
        requires at { IsAt self.now mark }
        requires mark { mark < length into.old.ranges }
        requires room { length into.old.clauses + 3 < 2 ^ 31 }
        ensures { OnOk result (into.new ≡ record into.old {
          clauses = into.old.clauses
              ++ map clause_of (around_clauses self.now.number self.now.low self.now.high mark);
        }) }
    {
        let number = Term::Var(self.number);
        let (low, high) = (i128::from(self.low), i128::from(self.high));
        let up = at_least(Term::Var(mark), 1);
        let down = at_most(Term::Var(mark), 0);
        add_lits(
            alloc,
            into,
            &[up, at_least(number, low), at_most(number, high - 1)],
        )?;
        add_lits(alloc, into, &[down, at_most(number, low - 1)])?;
        add_lits(alloc, into, &[down, at_least(number, high)])
    }

    // Whether a number isn't in the range.
    fn is_outside(&self, number: i128) -> bool
        ensures { result ≡ is_outside self.now number }
    {
        let below = number < i128::from(self.low);
        let above = i128::from(self.high) <= number;
        if self.low < self.high {
            below || above
        } else {
            below && above
        }
    }
}
