ghost use Rattle.std.specs.Prelude.{◌≡◌, ◌+◌, ◌-◌, ◌^◌, ◌<◌, ◌≤◌, ◌++◌, ◌∷◌, [], pos, neg_ℤ, ◌*◌, ◌*ℤ◌, map, length, unsigned_abs, IfOk, OnOk};
ghost use Rattle.ir_meaning.specs.Whole.{IsWidth};
ghost use Rattle.mix_system.specs.Row.{number_at};
ghost use Rattle.wrap_rows.specs.Normal.{row_of, clause_of};
ghost use Rattle.wrap_rows.specs.Piece.{put_from};
ghost use Rattle.wrap_rows.specs.Blocks.{equals};
ghost use Rattle.wrap_rows.specs.Scaled.{IsScale, factor, signed_factor, IsAt, sign_ranges, ranges, carry_row, signed_rows, signed_clauses, operands, exact, exact_signed, is_poison, sign_numbers, numbers, CanTake};

use crate::blocks::{add_equation, add_sign, greatest, is_marked, mark_of, power, sign_of};
use crate::wrapping::{Wrapped, add_wrapped_marks, is_barred, signed_of};
use crate::{Piece, ValueVars, add_sum, times, value_at};
use ir_meaning::Val;
use ll_tree::Flags;
use mix_system::System;
use std::alloc::Global;
use wx_base::NoMemory;

/// The constant by which an operand is multiplied. `poison` is 0 here, with a mark that is 1.
#[derive(Clone, Copy, Debug, PartialEq, Eq)]
pub enum Scale {
    /// A factor that is written before the operand.
    Before(u32),
    /// A factor that is written behind it.
    Behind(u32),
    /// `2^amount`, of a shift to the left by an amount below the width.
    Shift(u32),
}

/// A product with a constant factor, or a shift to the left by an amount below the width (LLVM Language Reference, `mul` and `shl`).
#[derive(Clone, Copy, Debug)]
pub struct Scaled {
    pub scale: Scale,
    pub flags: Flags,
    pub width: u32,
    pub a: ValueVars,
    /// The mark of the factor or of the amount.
    pub constant_mark: u32,
}

impl Piece for Scaled {
    ghost use Rattle.wrap_rows.specs.Scaled.{IsAt, ranges, layout, vars, CanTake, numbers, meaning};

    ghost is_at = { IsAt };

    ghost ranges = { ranges };

    ghost layout = { layout };

    ghost vars = { vars };

    ghost can_fill = { CanTake };

    ghost can_say = { CanTake };

    ghost numbers = { numbers };

    ghost meaning = { meaning };

    fn declare(&self, into: &mut System) -> Result<u32, NoMemory> {
        let first = into.add_var(0, greatest(self.width))?;
        into.add_var(0, 1)?;
        into.add_var(0, self.greatest_carry())?;
        if !self.flags.nsw {
            return Ok(first);
        }
        into.add_var(0, 1)?;
        Ok(first)
    }

    fn lay(&self, alloc: Global, first: u32, into: &mut System) -> Result<(), NoMemory> {
        let wrapped = Wrapped {
            flags: self.flags,
            width: self.width,
            carry: first + 1 + 1,
            row: into.rows() + 2,
        };
        self.add_carry(alloc, first, into)?;
        self.add_signed(alloc, first + 1 + 1 + 1, into)?;
        add_wrapped_marks(alloc, into, first + 1, &self.operands(), wrapped)
    }

    fn fill(&self, first: u32, point: &mut [i128]) {
        self.put(first, point);
    }

    fn sound(&self, first: u32, point: &[i128]) -> Val {
        value_at(self.vars(first), point)
    }

    fn stays_calm(&self, _: u32) {}

    fn vars(&self, first: u32) -> ValueVars {
        ValueVars {
            number: first,
            mark: first + 1,
        }
    }
}

impl Scaled {
    // Adds the row of the carry, with its clauses.
    fn add_carry(&self, alloc: Global, first: u32, into: &mut System) -> Result<(), NoMemory>
        requires at { IsAt self.now first }
        requires known { first + 3 ≤ length into.old.ranges }
        requires few_vars { length into.old.ranges < 2 ^ 31 }
        requires rows { length into.old.rows + 1 < 2 ^ 31 }
        requires clauses { length into.old.clauses + 2 < 2 ^ 31 }
        ensures { OnOk result (into.new ≡ record into.old {
          rows = into.old.rows ++ row_of (carry_row self.now first) ∷ [];
          clauses = into.old.clauses ++ map clause_of (equals (length into.old.rows) (pos 0));
        }) }
    {
        let factor = self.scale.factor(self.width);
        let parts = [
            times(i128::from(factor), self.a.number),
            times(-1, first),
            times(-power(self.width), first + 1 + 1),
        ];
        let row = add_sum(alloc, into, &parts)?;
        add_equation(alloc, into, row, 0)
    }

    // With `nsw` adds the sign of the operand, this variable, and the row of the exact signed result.
    fn add_signed(&self, alloc: Global, sign: u32, into: &mut System) -> Result<(), NoMemory>
        requires at { IsAt self.now sign }
        requires known { sign + length (sign_ranges self.now.flags.nsw) ≤ length into.old.ranges }
        requires few_vars { length into.old.ranges < 2 ^ 31 }
        requires rows { length into.old.rows + length
            (signed_rows self.now.flags.nsw self.now sign) < 2 ^ 31 }
        requires clauses { length into.old.clauses + length
            (signed_clauses self.now.flags.nsw self.now.width 0) < 2 ^ 31 }
        ensures { OnOk result (into.new ≡ record into.old {
          rows = into.old.rows ++ map row_of (signed_rows self.now.flags.nsw self.now sign);
          clauses = into.old.clauses ++ map clause_of
              (signed_clauses self.now.flags.nsw self.now.width (length into.old.rows));
        }) }
    {
        if !self.flags.nsw {
            return Ok(());
        }
        let parts = [
            times(self.scale.signed_factor(self.width), self.a.number),
            times(self.scale.sign_coefficient(self.width), sign),
        ];
        add_sign(alloc, into, self.width, self.a.number, sign)?;
        add_sum(alloc, into, &parts)?;
        Ok(())
    }

    // The marks of the operands, as they are written.
    fn operands(&self) -> [u32; 2]
        ensures { result ≡ operands self.now }
    {
        match self.scale {
            Scale::Before(_) => [self.constant_mark, self.a.mark],
            Scale::Behind(_) | Scale::Shift(_) => [self.a.mark, self.constant_mark],
        }
    }

    // The greatest carry.
    fn greatest_carry(&self) -> i128
        requires width { IsWidth self.now.width }
        requires scale { IsScale self.now.width self.now.scale }
        ensures { result ≡ pos (factor self.now.scale - 1) }
    {
        i128::from(self.scale.factor(self.width).saturating_sub(1))
    }

    // Writes the numbers.
    fn put(&self, first: u32, point: &mut [i128])
        requires at { IsAt self.now first }
        requires known { first + length (ranges self.now) ≤ length point.old }
        requires few { length point.old < 2 ^ 31 }
        requires operands { CanTake self.now point.old }
        ensures { point.new ≡ put_from first (numbers self.now point.old) point.old }
    {
        let exact = self.exact(point);
        let number = i128::from(exact % (1u64 << self.width));
        let carry = i128::from(exact >> self.width);
        let mark = mark_of(self.is_poison(exact, point));
        let sign = sign_of(self.width, point[self.a.number as usize]);
        point[first as usize] = number;
        point[first as usize + 1] = mark;
        point[first as usize + 1 + 1] = carry;
        self.put_sign(first + 1 + 1 + 1, sign, point);
    }

    // Writes the sign, where it stands, at this variable.
    fn put_sign(&self, at: u32, sign: i128, point: &mut [i128])
        requires known { at + length (sign_ranges self.now.flags.nsw) ≤ length point.old }
        requires few { length point.old < 2 ^ 31 }
        ensures { point.new ≡ put_from at (sign_numbers self.now.flags.nsw sign) point.old }
    {
        if !self.flags.nsw {
            return;
        }
        point[at as usize] = sign;
    }

    // The exact result.
    fn exact(&self, point: &[i128]) -> u64
        requires at { IsAt self.now (length point.now) }
        requires operands { CanTake self.now point.now }
        ensures { result ≡ exact self.now point.now }
    {
        product(
            point[self.a.number as usize] as u32,
            self.scale.factor(self.width),
        )
    }

    // The exact result of the signed readings.
    fn exact_signed(&self, point: &[i128]) -> i128
        requires at { IsAt self.now (length point.now) }
        requires operands { CanTake self.now point.now }
        ensures { result ≡ exact_signed self.now point.now }
    {
        let reading = signed_of(self.width, point[self.a.number as usize]);
        signed_product(reading, self.scale.signed_factor(self.width))
    }

    // Whether an operand is poison, or a flag bars the exact result, which is given.
    fn is_poison(&self, whole: u64, point: &[i128]) -> bool
        requires at { IsAt self.now (length point.now) }
        requires operands { CanTake self.now point.now }
        requires whole { whole ≡ exact self.now point.now }
        ensures { result ≡ is_poison self.now point.now }
    {
        let exact_signed = self.exact_signed(point);
        let is_barred = is_barred(self.flags, self.width, i128::from(whole), exact_signed);
        is_marked(self.a, point) || point[self.constant_mark as usize] == 1 || is_barred
    }
}

impl Scale {
    // What the operand is multiplied by.
    fn factor(self, width: u32) -> u32
        requires width { IsWidth width }
        requires scale { IsScale width self }
        ensures { result ≡ factor self }
    {
        match self {
            Scale::Before(factor) | Scale::Behind(factor) => factor,
            Scale::Shift(amount) => 1 << amount,
        }
    }

    // What its signed reading is multiplied by.
    fn signed_factor(self, width: u32) -> i128
        requires width { IsWidth width }
        requires scale { IsScale width self }
        ensures value { result ≡ signed_factor width self }
        ensures small { unsigned_abs result ≤ 2 ^ 31 }
    {
        match self {
            Scale::Before(factor) | Scale::Behind(factor) => signed_of(width, i128::from(factor)),
            Scale::Shift(amount) => power(amount),
        }
    }

    // The coefficient of the operand's sign.
    fn sign_coefficient(self, width: u32) -> i128
        requires width { IsWidth width }
        requires scale { IsScale width self }
        ensures value { result ≡ neg_ℤ (signed_factor width self *ℤ pos (2 ^ width)) }
        ensures small { unsigned_abs result ≤ 2 ^ 63 }
    {
        -signed_product(self.signed_factor(width), power(width))
    }
}

// The product, which fits.
fn product(a: u32, b: u32) -> u64
    ensures { result ≡ a * b }
{
    u64::from(a) * u64::from(b)
}

// The product of a number of at most `2^31` in size, and one of at most `2^32`.
fn signed_product(a: i128, b: i128) -> i128
    requires a { unsigned_abs a ≤ 2 ^ 31 }
    requires b { unsigned_abs b ≤ 2 ^ 32 }
    ensures value { result ≡ a *ℤ b }
    ensures small { unsigned_abs result ≤ 2 ^ 63 }
{
    a * b
}
