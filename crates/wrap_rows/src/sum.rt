ghost use Rattle.std.specs.Prelude.{◌≡◌, ◌+◌, ◌^◌, ◌<◌, ◌≤◌, ◌++◌, ◌∷◌, [], ◌≤ℤ◌, ◌<ℤ◌, pos, neg_ℤ, map, length, unsigned_abs, IfOk, OnOk};
ghost use Rattle.ir_meaning.specs.Whole.{IsWidth};
ghost use Rattle.mix_system.specs.Row.{number_at};
ghost use Rattle.wrap_rows.specs.Normal.{row_of, clause_of};
ghost use Rattle.wrap_rows.specs.Piece.{put_from};
ghost use Rattle.wrap_rows.specs.Blocks.{equals};
ghost use Rattle.wrap_rows.specs.Sum.{IsAt, ranges, sign_ranges, CanTake, numbers, coefficient, sign_coefficient, carry_range, joined, exact, exact_signed, reduced, carry, barred, is_poison, carry_row, signed_rows, signed_clauses};

use crate::blocks::{add_equation, add_sign, greatest, is_marked, mark_of, power, sign_of};
use crate::wrapping::{Wrapped, add_wrapped_marks, is_barred, signed_of};
use crate::{Piece, ValueVars, add_sum, times, value_at};
use ir_meaning::Val;
use ll_tree::Flags;
use mix_system::System;
use std::alloc::Global;
use wx_base::NoMemory;

/// Whether the second operand is added or taken away.
#[derive(Clone, Copy, Debug, PartialEq, Eq)]
pub enum SumKind {
    Plus,
    Minus,
}

/// A sum or a difference (LLVM Language Reference, `add` and `sub`).
#[derive(Clone, Copy, Debug)]
pub struct Sum {
    pub kind: SumKind,
    pub flags: Flags,
    pub width: u32,
    pub a: ValueVars,
    pub b: ValueVars,
}

impl Piece for Sum {
    ghost use Rattle.wrap_rows.specs.Sum.{IsAt, ranges, layout, vars, CanTake, numbers, meaning};

    ghost is_at = { IsAt };

    ghost ranges = { ranges };

    ghost layout = { layout };

    ghost vars = { vars };

    ghost can_fill = { CanTake };

    ghost can_say = { CanTake };

    ghost numbers = { numbers };

    ghost meaning = { meaning };

    fn declare(&self, into: &mut System) -> Result<u32, NoMemory> {
        let (low, high) = self.kind.carry_range();
        let first = into.add_var(0, greatest(self.width))?;
        into.add_var(0, 1)?;
        into.add_var(low, high)?;
        if !self.flags.nsw {
            return Ok(first);
        }
        into.add_var(0, 1)?;
        into.add_var(0, 1)?;
        Ok(first)
    }

    fn lay(&self, alloc: Global, first: u32, into: &mut System) -> Result<(), NoMemory> {
        let row = self.add_carry(alloc, first, into)?;
        self.add_signed(alloc, first + 1 + 1 + 1, into)?;
        let wrapped = Wrapped {
            flags: self.flags,
            width: self.width,
            carry: first + 1 + 1,
            row: row + 3,
        };
        let operands = [self.a.mark, self.b.mark];
        add_wrapped_marks(alloc, into, first + 1, &operands, wrapped)
    }

    fn fill(&self, first: u32, point: &mut [i128]) {
        self.put(first, point);
    }

    fn sound(&self, first: u32, point: &[i128]) -> Val {
        value_at(self.vars(first), point)
    }

    fn stays_calm(&self, _: u32) {}

    fn vars(&self, first: u32) -> ValueVars {
        ValueVars {
            number: first,
            mark: first + 1,
        }
    }
}

impl Sum {
    // Adds the row of the carry, with its clauses, and gives its number.
    fn add_carry(&self, alloc: Global, first: u32, into: &mut System) -> Result<u32, NoMemory>
        requires at { IsAt self.now first }
        requires known { first + 3 ≤ length into.old.ranges }
        requires few_vars { length into.old.ranges < 2 ^ 31 }
        requires rows { length into.old.rows + 1 < 2 ^ 31 }
        requires clauses { length into.old.clauses + 2 < 2 ^ 31 }
        ensures number { IfOk result (λ row. row ≡ length into.old.rows) }
        ensures ok { OnOk result (into.new ≡ record into.old {
          rows = into.old.rows ++ row_of (carry_row self.now first) ∷ [];
          clauses = into.old.clauses ++ map clause_of (equals (length into.old.rows) (pos 0));
        }) }
    {
        let parts = [
            times(1, self.a.number),
            times(self.kind.coefficient(), self.b.number),
            times(-1, first),
            times(-power(self.width), first + 1 + 1),
        ];
        let row = add_sum(alloc, into, &parts)?;
        add_equation(alloc, into, row, 0)?;
        Ok(row)
    }

    // With `nsw` adds the signs of the operands, the first at this variable,
    // and the row of the exact signed result.
    fn add_signed(&self, alloc: Global, sign: u32, into: &mut System) -> Result<(), NoMemory>
        requires at { IsAt self.now sign }
        requires known { sign + length (sign_ranges self.now.flags.nsw) ≤ length into.old.ranges }
        requires few_vars { length into.old.ranges < 2 ^ 31 }
        requires rows { length into.old.rows + length
            (signed_rows self.now.flags.nsw self.now sign) < 2 ^ 31 }
        requires clauses { length into.old.clauses + length
            (signed_clauses self.now.flags.nsw self.now.width 0 0) < 2 ^ 31 }
        ensures { OnOk result (into.new ≡ record into.old {
          rows = into.old.rows ++ map row_of (signed_rows self.now.flags.nsw self.now sign);
          clauses =
              into.old.clauses ++ map clause_of (signed_clauses self.now.flags.nsw self.now.width
              (length into.old.rows) (length into.old.rows + 1));
        }) }
    {
        if !self.flags.nsw {
            return Ok(());
        }
        let parts = [
            times(1, self.a.number),
            times(self.kind.coefficient(), self.b.number),
            times(-power(self.width), sign),
            times(self.kind.sign_coefficient(self.width), sign + 1),
        ];
        add_sign(alloc, into, self.width, self.a.number, sign)?;
        add_sign(alloc, into, self.width, self.b.number, sign + 1)?;
        add_sum(alloc, into, &parts)?;
        Ok(())
    }

    // Writes the numbers.
    fn put(&self, first: u32, point: &mut [i128])
        requires at { IsAt self.now first }
        requires known { first + length (ranges self.now) ≤ length point.old }
        requires few { length point.old < 2 ^ 31 }
        requires operands { CanTake self.now point.old }
        ensures { point.new ≡ put_from first (numbers self.now point.old) point.old }
    {
        let number = self.number(point);
        let mark = mark_of(self.is_poison(point));
        let carry = self.carry(point);
        let sign = sign_of(self.width, point[self.a.number as usize]);
        let other_sign = sign_of(self.width, point[self.b.number as usize]);
        let at = first as usize;
        point[at] = number;
        point[at + 1] = mark;
        point[at + 1 + 1] = carry;
        if self.flags.nsw {
            point[at + 1 + 1 + 1] = sign;
            point[at + 1 + 1 + 1 + 1] = other_sign;
        }
    }

    // The exact result brought back to the numbers of the width.
    fn number(&self, point: &[i128]) -> i128
        requires at { IsAt self.now (length point.now) }
        requires operands { CanTake self.now point.now }
        ensures { result ≡ reduced self.now.width (exact self.now point.now) }
    {
        let exact = self.exact(point);
        if exact < 0 {
            exact + power(self.width)
        } else if exact < power(self.width) {
            exact
        } else {
            exact - power(self.width)
        }
    }

    // How many times `2^width` is taken from the exact result.
    fn carry(&self, point: &[i128]) -> i128
        requires at { IsAt self.now (length point.now) }
        requires operands { CanTake self.now point.now }
        ensures { result ≡ carry self.now.width (exact self.now point.now) }
    {
        let exact = self.exact(point);
        if exact < 0 {
            -1
        } else if exact < power(self.width) {
            0
        } else {
            1
        }
    }

    // The exact result.
    fn exact(&self, point: &[i128]) -> i128
        requires at { IsAt self.now (length point.now) }
        requires operands { CanTake self.now point.now }
        ensures value { result ≡ exact self.now point.now }
        ensures least { neg_ℤ (pos (2 ^ self.now.width)) ≤ℤ result }
        ensures greatest { result <ℤ pos (2 ^ self.now.width + 2 ^ self.now.width) }
    {
        let a = point[self.a.number as usize];
        let b = point[self.b.number as usize];
        self.kind.joined(a, b)
    }

    // The exact result of the signed readings.
    fn exact_signed(&self, point: &[i128]) -> i128
        requires at { IsAt self.now (length point.now) }
        requires operands { CanTake self.now point.now }
        ensures { result ≡ exact_signed self.now point.now }
    {
        let a = signed_of(self.width, point[self.a.number as usize]);
        let b = signed_of(self.width, point[self.b.number as usize]);
        self.kind.joined(a, b)
    }

    // Whether a flag bars the result.
    fn is_barred(&self, point: &[i128]) -> bool
        requires at { IsAt self.now (length point.now) }
        requires operands { CanTake self.now point.now }
        ensures { result ≡ barred self.now point.now }
    {
        let exact = self.exact(point);
        let exact_signed = self.exact_signed(point);
        is_barred(self.flags, self.width, exact, exact_signed)
    }

    // Whether an operand is poison, or a flag bars the result.
    fn is_poison(&self, point: &[i128]) -> bool
        requires at { IsAt self.now (length point.now) }
        requires operands { CanTake self.now point.now }
        ensures { result ≡ is_poison self.now point.now }
    {
        let is_barred = self.is_barred(point);
        is_marked(self.a, point) || is_marked(self.b, point) || is_barred
    }
}

impl SumKind {
    // The sum or the difference of two numbers.
    fn joined(self, a: i128, b: i128) -> i128
        requires a { unsigned_abs a ≤ 2 ^ 62 }
        requires b { unsigned_abs b ≤ 2 ^ 62 }
        ensures { result ≡ joined self a b }
    {
        match self {
            SumKind::Plus => a + b,
            SumKind::Minus => a - b,
        }
    }

    // The second operand's coefficient.
    fn coefficient(self) -> i128
        ensures value { result ≡ coefficient self }
        ensures small { unsigned_abs result ≤ 1 }
    {
        match self {
            SumKind::Plus => 1,
            SumKind::Minus => -1,
        }
    }

    // The coefficient of the second operand's sign.
    fn sign_coefficient(self, width: u32) -> i128
        requires { IsWidth width }
        ensures value { result ≡ sign_coefficient self width }
        ensures small { unsigned_abs result ≤ 2 ^ 32 }
    {
        match self {
            SumKind::Plus => -power(width),
            SumKind::Minus => power(width),
        }
    }

    // The least and the greatest carry.
    fn carry_range(self) -> (i128, i128)
        ensures { result ≡ carry_range self }
    {
        match self {
            SumKind::Plus => (0, 1),
            SumKind::Minus => (-1, 0),
        }
    }
}
