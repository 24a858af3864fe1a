ghost use Rattle.std.specs.Prelude.{◌≡◌, ◌+◌, ◌-◌, ◌/◌, ◌%◌, ◌^◌, ◌<◌, ◌≤◌, ◌++◌, ◌∷◌, [], pos, neg_ℤ, map, length, unsigned_abs, OnOk};
ghost use Rattle.mix_system.specs.Row.{number_at};
ghost use Rattle.wrap_rows.specs.Normal.{row_of};
ghost use Rattle.wrap_rows.specs.Layout.{clause_from};
ghost use Rattle.wrap_rows.specs.Blocks.{equals};
ghost use Rattle.wrap_rows.specs.Piece.{put_from};
ghost use Rattle.div_rows.specs.Division.{other};
ghost use Rattle.div_rows.specs.UnsignedDivision.{IsAt, ranges, division_row, limit_clauses, mark_clauses, CanTake, remainder_of, is_poison, numbers};

use crate::division::DivisionKind;
use ir_meaning::Val;
use ll_tree::Flags;
use mix_system::{System, Term};
use std::alloc::Global;
use wrap_rows::{
    Piece, ValueVars, add_equation, add_lits, add_marks, add_sum, at_least, at_most, greatest,
    is_marked, mark_of, times, value_at,
};
use wx_base::NoMemory;

/// A division of a number by a constant (LLVM Language Reference, `udiv` and `urem`).
#[derive(Clone, Copy, Debug)]
pub struct UnsignedDivision {
    pub kind: DivisionKind,
    pub flags: Flags,
    pub width: u32,
    /// A number of the width other than 0.
    pub divisor: u32,
    pub a: ValueVars,
    /// The variable of the divisor's mark.
    pub divisor_mark: u32,
}

impl Piece for UnsignedDivision {
    ghost use Rattle.div_rows.specs.UnsignedDivision.{IsAt, ranges, layout, vars, CanTake, numbers, meaning};

    ghost is_at = { IsAt };

    ghost ranges = { ranges };

    ghost layout = { layout };

    ghost vars = { vars };

    ghost can_fill = { CanTake };

    ghost can_say = { CanTake };

    ghost numbers = { numbers };

    ghost meaning = { meaning };

    fn declare(&self, into: &mut System) -> Result<u32, NoMemory> {
        let first = into.add_var(0, greatest(self.width))?;
        into.add_var(0, 1)?;
        into.add_var(0, self.helper_greatest())?;
        Ok(first)
    }

    fn lay(&self, alloc: Global, first: u32, into: &mut System) -> Result<(), NoMemory> {
        let row = into.rows();
        self.add_division(alloc, first, into)?;
        self.add_limit(alloc, first, row, into)?;
        add_equation(alloc, into, row, 0)?;
        self.add_marks(alloc, first, row, into)
    }

    fn fill(&self, first: u32, point: &mut [i128]) {
        self.put(first, point);
    }

    fn sound(&self, first: u32, point: &[i128]) -> Val {
        value_at(self.vars(first), point)
    }

    fn stays_calm(&self, _: u32) {}

    fn vars(&self, first: u32) -> ValueVars {
        ValueVars {
            number: first,
            mark: first + 1,
        }
    }
}

impl UnsignedDivision {
    // The greatest number of the helper.
    fn helper_greatest(&self) -> i128
        requires at { IsAt self.now (2 ^ 32) }
        ensures { result ≡ pos (other self.now.kind ((2 ^ self.now.width - 1) / self.now.divisor)
            (self.now.divisor - 1)) }
    {
        match self.kind {
            DivisionKind::Quotient => i128::from(self.divisor - 1),
            DivisionKind::Remainder => {
                i128::from(((1u64 << self.width) - 1) / u64::from(self.divisor))
            }
        }
    }

    // Adds the row of the division.
    fn add_division(&self, alloc: Global, first: u32, into: &mut System) -> Result<(), NoMemory>
        requires at { IsAt self.now first }
        requires known { first + 2 < length into.old.ranges }
        requires few_vars { length into.old.ranges < 2 ^ 31 }
        requires rows { length into.old.rows + 1 < 2 ^ 31 }
        ensures { OnOk result (into.new ≡ record into.old {
          rows = into.old.rows ++ row_of (division_row self.now.kind self.now first) ∷ [];
        }) }
    {
        let helper = first + 1 + 1;
        let parts = [
            times(1, self.a.number),
            times(self.less_divisor(), self.kind.chosen(first, helper)),
            times(-1, self.kind.chosen(helper, first)),
        ];
        add_sum(alloc, into, &parts)?;
        Ok(())
    }

    // The divisor with its sign turned.
    fn less_divisor(&self) -> i128
        ensures value { result ≡ neg_ℤ (pos self.now.divisor) }
        ensures small { unsigned_abs result < 2 ^ 32 }
    {
        -i128::from(self.divisor)
    }

    // A number that is the remainder is below the divisor.
    fn add_limit(
        &self,
        alloc: Global,
        first: u32,
        row: u32,
        into: &mut System,
    ) -> Result<(), NoMemory>
        requires at { IsAt self.now first }
        requires known { first < length into.old.ranges }
        requires room { length into.old.clauses + length
            (limit_clauses self.now.kind self.now first) < 2 ^ 31 }
        ensures { OnOk result (into.new ≡ record into.old {
          clauses =
              into.old.clauses
              ++ map (clause_from row) (limit_clauses self.now.kind self.now first);
        }) }
    {
        match self.kind {
            DivisionKind::Quotient => Ok(()),
            DivisionKind::Remainder => {
                let greatest = i128::from(self.divisor - 1);
                add_lits(alloc, into, &[at_most(Term::Var(first), greatest)])
            }
        }
    }

    // The clauses of the mark.
    fn add_marks(
        &self,
        alloc: Global,
        first: u32,
        row: u32,
        into: &mut System,
    ) -> Result<(), NoMemory>
        requires at { IsAt self.now first }
        requires known { first + 2 < length into.old.ranges }
        requires few_vars { length into.old.ranges < 2 ^ 31 }
        requires room { length into.old.clauses + length
            (mark_clauses self.now.kind self.now first) < 2 ^ 31 }
        ensures { OnOk result (into.new ≡ record into.old {
          clauses =
              into.old.clauses ++ map (clause_from row) (mark_clauses self.now.kind self.now first);
        }) }
    {
        let operands = [self.a.mark, self.divisor_mark];
        if !self.kind.is_exact(self.flags) {
            return add_marks(alloc, into, first + 1, &operands, &[]);
        }
        let inexact = [at_least(Term::Var(first + 1 + 1), 1)];
        add_marks(alloc, into, first + 1, &operands, &inexact)
    }

    // Writes the numbers.
    fn put(&self, first: u32, point: &mut [i128])
        requires at { IsAt self.now first }
        requires known { first + length (ranges self.now) ≤ length point.old }
        requires few { length point.old < 2 ^ 31 }
        requires operands { CanTake self.now point.old }
        ensures { point.new ≡ put_from first (numbers self.now point.old) point.old }
    {
        let a = self.divided(point);
        let quotient = a / self.divisor;
        let remainder = a % self.divisor;
        let number = self.kind.chosen(quotient, remainder);
        let mark = mark_of(self.is_poison(remainder, point));
        let helper = self.kind.other(quotient, remainder);
        point[first as usize] = i128::from(number);
        point[first as usize + 1] = mark;
        point[first as usize + 1 + 1] = i128::from(helper);
    }

    // The number that is divided.
    fn divided(&self, point: &[i128]) -> u32
        requires at { IsAt self.now (length point.now) }
        requires operands { CanTake self.now point.now }
        ensures { result ≡ unsigned_abs (number_at point.now self.now.a.number) }
    {
        point[self.a.number as usize] as u32
    }

    // Whether an operand is poison, or the remainder is barred.
    fn is_poison(&self, rest: u32, point: &[i128]) -> bool
        requires at { IsAt self.now (length point.now) }
        requires rest { rest ≡ remainder_of self.now point.now }
        ensures { result ≡ is_poison self.now point.now }
    {
        let is_barred = self.kind.is_exact(self.flags) && rest != 0;
        is_marked(self.a, point) || point[self.divisor_mark as usize] == 1 || is_barred
    }
}
