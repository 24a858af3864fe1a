ghost use Rattle.std.specs.Prelude.{◌≡◌, ◌+◌, ◌-◌, ◌/◌, ◌%◌, ◌^◌, ◌<◌, ◌≤◌, ◌++◌, ◌∷◌, [], pos, neg_ℤ, map, length, OnOk};
ghost use Rattle.ir_meaning.specs.Whole.{IsWidth};
ghost use Rattle.wrap_rows.specs.Normal.{row_of};
ghost use Rattle.wrap_rows.specs.Layout.{clause_from};
ghost use Rattle.wrap_rows.specs.Piece.{put_from};
ghost use Rattle.wrap_rows.specs.ShiftRight.{IsAt, helper_ranges, ranges, sign_rows, signed_row, division_row, division_at, rest_at, sign_clauses_of, value_clauses, layout, raised, divided, is_poison, helpers, CanTake, numbers};

use crate::blocks::{add_equation, add_sign, greatest, is_marked, mark_of, power, sign_of};
use crate::{Piece, ValueVars, add_marks, add_sum, at_least, times, value_at};
use ir_meaning::Val;
use ll_tree::Flags;
use mix_system::{System, Term};
use std::alloc::Global;
use wx_base::NoMemory;

/// A shift to the right by an amount below the width (LLVM Language Reference, `lshr` and `ashr`).
#[derive(Clone, Copy, Debug)]
pub struct ShiftRight {
    /// Whether the signed reading is shifted, as `ashr` does.
    pub signed: bool,
    pub flags: Flags,
    pub width: u32,
    pub amount: u32,
    pub a: ValueVars,
    /// The variable of the amount's mark. An amount that is `poison` counts as 0.
    pub amount_mark: u32,
}

impl Piece for ShiftRight {
    ghost use Rattle.wrap_rows.specs.ShiftRight.{IsAt, ranges, layout, vars, CanTake, numbers, meaning};

    ghost is_at = { IsAt };

    ghost ranges = { ranges };

    ghost layout = { layout };

    ghost vars = { vars };

    ghost can_fill = { CanTake };

    ghost can_say = { CanTake };

    ghost numbers = { numbers };

    ghost meaning = { meaning };

    fn declare(&self, into: &mut System) -> Result<u32, NoMemory> {
        let first = into.add_var(0, greatest(self.width))?;
        into.add_var(0, 1)?;
        self.declare_helpers(into)?;
        Ok(first)
    }

    fn lay(&self, alloc: Global, first: u32, into: &mut System) -> Result<(), NoMemory> {
        let row = into.rows();
        self.add_sign(alloc, first, into)?;
        self.add_division(alloc, first, into)?;
        self.add_clauses(alloc, first, row, into)
    }

    fn fill(&self, first: u32, point: &mut [i128]) {
        self.put(first, point);
    }

    fn sound(&self, first: u32, point: &[i128]) -> Val {
        value_at(self.vars(first), point)
    }

    fn stays_calm(&self, _: u32) {}

    fn vars(&self, first: u32) -> ValueVars {
        ValueVars {
            number: first,
            mark: first + 1,
        }
    }
}

impl ShiftRight {
    // Adds the variables of the helpers.
    fn declare_helpers(&self, into: &mut System) -> Result<(), NoMemory>
        requires width { IsWidth self.now.width }
        requires below { self.now.amount < self.now.width }
        requires room { length into.old.ranges + length
            (helper_ranges self.now.signed self.now.amount) < 2 ^ 31 }
        ensures { OnOk result (into.new ≡ record into.old {
          ranges = into.old.ranges ++ helper_ranges self.now.signed self.now.amount;
        }) }
    {
        if !self.signed {
            into.add_var(0, greatest(self.amount))?;
            return Ok(());
        }
        into.add_var(0, 1)?;
        into.add_var(0, greatest(self.amount))?;
        Ok(())
    }

    // The row and the clauses of the sign, where it stands.
    fn add_sign(&self, alloc: Global, first: u32, into: &mut System) -> Result<(), NoMemory>
        requires at { IsAt self.now first }
        requires known { first + length (ranges self.now) ≤ length into.old.ranges }
        requires few_vars { length into.old.ranges < 2 ^ 31 }
        requires rows { length into.old.rows + length
            (sign_rows self.now.signed self.now first) < 2 ^ 31 }
        requires room { length into.old.clauses + length
            (sign_clauses_of self.now.signed self.now) < 2 ^ 31 }
        ensures { OnOk result (into.new ≡ record into.old {
          rows = into.old.rows ++ map row_of (sign_rows self.now.signed self.now first);
          clauses = into.old.clauses
              ++ map (clause_from (length into.old.rows))
              (sign_clauses_of self.now.signed self.now);
        }) }
    {
        if !self.signed {
            return Ok(());
        }
        add_sign(alloc, into, self.width, self.a.number, first + 1 + 1)
    }

    // The row of the division.
    fn add_division(&self, alloc: Global, first: u32, into: &mut System) -> Result<(), NoMemory>
        requires at { IsAt self.now first }
        requires known { first + length (ranges self.now) ≤ length into.old.ranges }
        requires few_vars { length into.old.ranges < 2 ^ 31 }
        requires rows { length into.old.rows + 1 < 2 ^ 31 }
        ensures { OnOk result (into.new ≡ record into.old {
          rows = into.old.rows ++ row_of (division_row self.now.signed self.now first) ∷ [];
        }) }
    {
        if self.signed {
            return self.add_signed_row(alloc, first, into);
        }
        let parts = [
            times(1, self.a.number),
            times(-power(self.amount), first),
            times(-1, first + 1 + 1),
        ];
        add_sum(alloc, into, &parts)?;
        Ok(())
    }

    // The row of the division of the signed reading.
    fn add_signed_row(&self, alloc: Global, first: u32, into: &mut System) -> Result<(), NoMemory>
        requires at { IsAt self.now first }
        requires known { first + 3 < length into.old.ranges }
        requires few_vars { length into.old.ranges < 2 ^ 31 }
        requires rows { length into.old.rows + 1 < 2 ^ 31 }
        ensures { OnOk result (into.new ≡ record into.old {
          rows = into.old.rows ++ row_of (signed_row self.now first) ∷ [];
        }) }
    {
        let sign = first + 1 + 1;
        let parts = [
            times(1, self.a.number),
            times(minus_power(self.width), sign),
            times(minus_power(self.amount), first),
            times(self.lift(), sign),
            times(-1, sign + 1),
        ];
        add_sum(alloc, into, &parts)?;
        Ok(())
    }

    // The clauses behind those of the sign, over the rows from this one on.
    fn add_clauses(
        &self,
        alloc: Global,
        first: u32,
        row: u32,
        into: &mut System,
    ) -> Result<(), NoMemory>
        requires at { IsAt self.now first }
        requires known { first + length (ranges self.now) ≤ length into.old.ranges }
        requires few_vars { length into.old.ranges < 2 ^ 31 }
        requires rows { row + length (layout self.now first).rows ≤ length into.old.rows }
        requires few { length into.old.rows < 2 ^ 31 }
        requires room { length into.old.clauses + length
            (value_clauses self.now.signed self.now first) < 2 ^ 31 }
        ensures { OnOk result (into.new ≡ record into.old {
          clauses =
              into.old.clauses
              ++ map (clause_from row) (value_clauses self.now.signed self.now first);
        }) }
    {
        add_equation(alloc, into, row + self.division_at(), 0)?;
        let operands = [self.a.mark, self.amount_mark];
        if !self.flags.exact {
            return add_marks(alloc, into, first + 1, &operands, &[]);
        }
        let inexact = [at_least(Term::Var(self.rest_at(first)), 1)];
        add_marks(alloc, into, first + 1, &operands, &inexact)
    }

    // The number of the division's row, counted from the piece's first.
    fn division_at(&self) -> u32
        ensures { result ≡ division_at self.now.signed }
    {
        if self.signed { 1 } else { 0 }
    }

    // The variable of the division's rest.
    fn rest_at(&self, first: u32) -> u32
        requires { first + 3 < 2 ^ 32 }
        ensures { result ≡ rest_at self.now.signed first }
    {
        if self.signed {
            first + 1 + 1 + 1
        } else {
            first + 1 + 1
        }
    }

    // Writes the numbers.
    fn put(&self, first: u32, point: &mut [i128])
        requires at { IsAt self.now first }
        requires known { first + length (ranges self.now) ≤ length point.old }
        requires few { length point.old < 2 ^ 31 }
        requires operands { CanTake self.now point.old }
        ensures { point.new ≡ put_from first (numbers self.now point.old) point.old }
    {
        let divided = self.divided(point);
        let quotient = i128::from(divided / self.divisor());
        let rest = divided % self.divisor();
        let mark = mark_of(self.is_poison(rest, point));
        let sign = sign_of(self.width, point[self.a.number as usize]);
        point[first as usize] = quotient;
        point[first as usize + 1] = mark;
        self.put_helpers(first + 1 + 1, sign, i128::from(rest), point);
    }

    // Writes the helpers from this variable on.
    fn put_helpers(&self, at: u32, sign: i128, rest: i128, point: &mut [i128])
        requires known { at + length
            (helper_ranges self.now.signed self.now.amount) ≤ length point.old }
        requires few { length point.old < 2 ^ 31 }
        ensures { point.new ≡ put_from at (helpers self.now.signed sign rest) point.old }
    {
        if !self.signed {
            point[at as usize] = rest;
            return;
        }
        point[at as usize] = sign;
        point[at as usize + 1] = rest;
    }

    // Whether an operand is poison, or a rest is barred.
    fn is_poison(&self, rest: u64, point: &[i128]) -> bool
        requires at { IsAt self.now (length point.now) }
        requires rest { rest ≡ divided self.now point.now % 2 ^ self.now.amount }
        ensures { result ≡ is_poison self.now point.now }
    {
        let is_barred = self.flags.exact && 0 < rest;
        is_marked(self.a, point) || point[self.amount_mark as usize] == 1 || is_barred
    }

    // The number that is divided.
    fn divided(&self, point: &[i128]) -> u64
        requires at { IsAt self.now (length point.now) }
        requires operands { CanTake self.now point.now }
        ensures { result ≡ divided self.now point.now }
    {
        self.raised(point[self.a.number as usize] as u32)
    }

    // The number, raised where its signed reading is shifted and negative.
    fn raised(&self, number: u32) -> u64
        requires width { IsWidth self.now.width }
        requires below { self.now.amount < self.now.width }
        requires number { number < 2 ^ self.now.width }
        ensures { result ≡ raised self.now.signed self.now.width self.now.amount number }
    {
        let number = u64::from(number);
        if self.signed && (1 << (self.width - 1)) <= number {
            number + (self.high_power() - (1 << self.width))
        } else {
            number
        }
    }

    // `2^(amount + width)`, as a coefficient.
    fn lift(&self) -> i128
        requires width { IsWidth self.now.width }
        requires below { self.now.amount < self.now.width }
        ensures { result ≡ pos (2 ^ (self.now.amount + self.now.width)) }
    {
        i128::from(self.high_power())
    }

    // `2^(amount + width)`.
    fn high_power(&self) -> u64
        requires width { IsWidth self.now.width }
        requires below { self.now.amount < self.now.width }
        ensures { result ≡ 2 ^ (self.now.amount + self.now.width) }
    {
        1 << (self.amount + self.width)
    }

    // `2^amount`.
    fn divisor(&self) -> u64
        requires { self.now.amount < 32 }
        ensures value { result ≡ 2 ^ self.now.amount }
        ensures some { 0 < result }
    {
        1 << self.amount
    }
}

// `-2^exponent`.
fn minus_power(exponent: u32) -> i128
    requires { exponent < 63 }
    ensures { result ≡ neg_ℤ (pos (2 ^ exponent)) }
{
    -power(exponent)
}
