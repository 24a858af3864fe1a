ghost use Rattle.std.specs.Prelude.{◌≡◌, ◌+◌, ◌^◌, ◌<◌, ◌≤◌, ◌++◌, ◌∷◌, [], ◌||◌, true, false, pos, map, length, unsigned_abs, IfOk, OnOk};
ghost use Rattle.mix_system.specs.Row.{number_at};
ghost use Rattle.wrap_rows.specs.Normal.{row_of, clause_of};
ghost use Rattle.wrap_rows.specs.Blocks.{equals, marks};
ghost use Rattle.wrap_rows.specs.Piece.{Lays, put_from};
ghost use Rattle.wrap_rows.specs.Vars.{is_marked};
ghost use Rattle.wrap_rows.specs.Trunc.{IsAt, ranges, CanTake, numbers, number, carry, barred, carry_row, literals, plain_layout, signed_layout};

use crate::blocks::{add_equation, add_sign, greatest, is_marked, mark_of, power, sign_of};
use crate::wrapping::{below_signed, is_barred, listed, signed_of};
use crate::{Piece, ValueVars, add_marks, add_sum, at_least, times, value_at};
use ir_meaning::Val;
use ll_tree::Flags;
use mix_system::{System, Term};
use std::alloc::Global;
use wx_base::NoMemory;

/// A truncation from one width to another (LLVM Language Reference, `trunc .. to`).
#[derive(Clone, Copy, Debug)]
pub struct Trunc {
    pub flags: Flags,
    pub from: u32,
    pub to: u32,
    pub a: ValueVars,
}

impl Piece for Trunc {
    ghost use Rattle.wrap_rows.specs.Trunc.{IsAt, ranges, layout, vars, CanTake, numbers, meaning};

    ghost is_at = { IsAt };

    ghost ranges = { ranges };

    ghost layout = { layout };

    ghost vars = { vars };

    ghost can_fill = { CanTake };

    ghost can_say = { CanTake };

    ghost numbers = { numbers };

    ghost meaning = { meaning };

    fn declare(&self, into: &mut System) -> Result<u32, NoMemory> {
        let most = greatest(self.from - self.to);
        let first = into.add_var(0, greatest(self.to))?;
        into.add_var(0, 1)?;
        if !self.flags.nsw {
            into.add_var(0, most)?;
            return Ok(first);
        }
        into.add_var(0, 1)?;
        into.add_var(0, most)?;
        Ok(first)
    }

    fn lay(&self, alloc: Global, first: u32, into: &mut System) -> Result<(), NoMemory> {
        if self.flags.nsw {
            self.lay_signed(alloc, first, into)
        } else {
            self.lay_plain(alloc, first, into)
        }
    }

    fn fill(&self, first: u32, point: &mut [i128]) {
        self.put(first, point);
    }

    fn sound(&self, first: u32, point: &[i128]) -> Val {
        value_at(self.vars(first), point)
    }

    fn stays_calm(&self, _: u32) {}

    fn vars(&self, first: u32) -> ValueVars {
        ValueVars {
            number: first,
            mark: first + 1,
        }
    }
}

impl Trunc {
    // Its rows and clauses without `nsw`.
    fn lay_plain(&self, alloc: Global, first: u32, into: &mut System) -> Result<(), NoMemory>
        requires at { IsAt self.now first }
        requires known { first + 3 ≤ length into.old.ranges }
        requires few_vars { length into.old.ranges < 2 ^ 31 }
        requires unsigned { self.now.flags.nsw ≡ false }
        requires rows { length into.old.rows + 1 < 2 ^ 31 }
        requires clauses { length into.old.clauses + length
            (plain_layout self.now.flags.nuw self.now first).clauses < 2 ^ 31 }
        ensures { OnOk result (Lays (plain_layout self.now.flags.nuw self.now first)
            into.old into.new) }
    {
        let carry = first + 1 + 1;
        self.add_carry(alloc, first, carry, into)?;
        let operands = [self.a.mark];
        let lits = [at_least(Term::Var(carry), 1)];
        let listed = listed(self.flags, 1, &lits);
        add_marks(alloc, into, first + 1, &operands, listed)
    }

    // Its rows and clauses with `nsw`.
    fn lay_signed(&self, alloc: Global, first: u32, into: &mut System) -> Result<(), NoMemory>
        requires at { IsAt self.now first }
        requires known { first + 4 ≤ length into.old.ranges }
        requires few_vars { length into.old.ranges < 2 ^ 31 }
        requires signed { self.now.flags.nsw ≡ true }
        requires rows { length into.old.rows + 3 < 2 ^ 31 }
        requires clauses { length into.old.clauses + length
            (signed_layout self.now.flags.nuw self.now first).clauses < 2 ^ 31 }
        ensures { OnOk result (Lays (signed_layout self.now.flags.nuw self.now first)
            into.old into.new) }
    {
        let sign = first + 1 + 1;
        let carry = sign + 1;
        add_sign(alloc, into, self.from, self.a.number, sign)?;
        self.add_carry(alloc, first, carry, into)?;
        let parts = [times(1, self.a.number), times(-power(self.from), sign)];
        let signed = Term::Row(add_sum(alloc, into, &parts)?);
        let half = power(self.to - 1);
        let operands = [self.a.mark];
        let lits = [
            at_least(Term::Var(carry), 1),
            at_least(signed, half),
            below_signed(self.to, signed),
        ];
        let listed = listed(self.flags, 1, &lits);
        add_marks(alloc, into, first + 1, &operands, listed)
    }

    // Adds the row of the carry, with its clauses.
    fn add_carry(
        &self,
        alloc: Global,
        first: u32,
        carry: u32,
        into: &mut System,
    ) -> Result<(), NoMemory>
        requires at { IsAt self.now first }
        requires order { first < carry }
        requires known { carry < length into.old.ranges }
        requires few_vars { length into.old.ranges < 2 ^ 31 }
        requires rows { length into.old.rows + 1 < 2 ^ 31 }
        requires clauses { length into.old.clauses + 2 < 2 ^ 31 }
        ensures { OnOk result (into.new ≡ record into.old {
          rows = into.old.rows ++ row_of (carry_row self.now first carry) ∷ [];
          clauses = into.old.clauses ++ map clause_of (equals (length into.old.rows) (pos 0));
        }) }
    {
        let parts = [
            times(1, self.a.number),
            times(-power(self.to), carry),
            times(-1, first),
        ];
        let row = add_sum(alloc, into, &parts)?;
        add_equation(alloc, into, row, 0)
    }

    // Writes the numbers.
    fn put(&self, first: u32, point: &mut [i128])
        requires at { IsAt self.now first }
        requires known { first + length (ranges self.now) ≤ length point.old }
        requires few { length point.old < 2 ^ 31 }
        requires operands { CanTake self.now point.old }
        ensures { point.new ≡ put_from first (numbers self.now point.old) point.old }
    {
        let number = self.number(point);
        let mark = mark_of(self.is_poison(point));
        let carry = self.carry(point);
        let sign = sign_of(self.from, point[self.a.number as usize]);
        let at = first as usize;
        point[at] = number;
        point[at + 1] = mark;
        if self.flags.nsw {
            point[at + 1 + 1] = sign;
            point[at + 1 + 1 + 1] = carry;
        } else {
            point[at + 1 + 1] = carry;
        }
    }

    // What is left of the operand below `2^to`.
    fn number(&self, point: &[i128]) -> i128
        requires at { IsAt self.now (length point.now) }
        requires operand { CanTake self.now point.now }
        ensures { result ≡ number self.now point.now }
    {
        i128::from(self.operand(point) % (1u64 << self.to))
    }

    // How many times `2^to` is taken from the operand.
    fn carry(&self, point: &[i128]) -> i128
        requires at { IsAt self.now (length point.now) }
        requires operand { CanTake self.now point.now }
        ensures { result ≡ carry self.now point.now }
    {
        i128::from(self.operand(point) >> self.to)
    }

    // The operand.
    fn operand(&self, point: &[i128]) -> u64
        requires at { IsAt self.now (length point.now) }
        requires operand { CanTake self.now point.now }
        ensures { result ≡ unsigned_abs (number_at point.now self.now.a.number) }
    {
        point[self.a.number as usize] as u64
    }

    // Whether the operand is poison, or a flag bars the result.
    fn is_poison(&self, point: &[i128]) -> bool
        requires at { IsAt self.now (length point.now) }
        requires operand { CanTake self.now point.now }
        ensures { result ≡ (is_marked self.now.a point.now || barred self.now point.now) }
    {
        let is_barred = self.is_barred(point);
        is_marked(self.a, point) || is_barred
    }

    // Whether a flag bars the result.
    fn is_barred(&self, point: &[i128]) -> bool
        requires at { IsAt self.now (length point.now) }
        requires operand { CanTake self.now point.now }
        ensures { result ≡ barred self.now point.now }
    {
        let a = point[self.a.number as usize];
        is_barred(self.flags, self.to, a, signed_of(self.from, a))
    }
}
