ghost use Rattle.std.specs.Prelude.{◌≡◌, ◌+◌, ◌^◌, ◌<◌, ◌≤◌, ◌++◌, ◌∷◌, [], map, length, OnOk};
ghost use Rattle.mix_system.specs.System.{IsInner, Exists};
ghost use Rattle.ir_meaning.specs.Whole.{IsWidth};
ghost use Rattle.wrap_rows.specs.Normal.{row_of, clause_of};
ghost use Rattle.wrap_rows.specs.Layout.{clause_from};
ghost use Rattle.wrap_rows.specs.Blocks.{compared};
ghost use Rattle.wrap_rows.specs.Piece.{put_from};
ghost use Rattle.wrap_rows.specs.Vars.{IsNumber};
ghost use Rattle.wrap_rows.specs.Compare.{IsAt, reads_signs, needs_signs, sign_ranges, ranges, sign_rows, sign_difference, difference_row, difference_at, sign_clauses_of, equal_clauses, mark_clauses, value_clauses, layout, CanTake, reading, read_as, stands_so, holds_of, signs_differ, is_poison, signs, numbers};

use crate::blocks::{add_sign, is_marked, mark_of, power, sign_of};
use crate::{Piece, ValueVars, add_lits, add_marks, add_sum, at_least, at_most, times, value_at};
use ir_meaning::Val;
use ll_tree::{Flags, Pred};
use mix_system::{Lit, System, Term};
use std::alloc::Global;
use wx_base::NoMemory;

/// A comparison of two numbers (LLVM Language Reference, `icmp`).
#[derive(Clone, Copy, Debug)]
pub struct Compare {
    pub pred: Pred,
    pub flags: Flags,
    pub width: u32,
    pub a: ValueVars,
    pub b: ValueVars,
}

impl Piece for Compare {
    ghost use Rattle.wrap_rows.specs.Compare.{IsAt, ranges, layout, vars, CanTake, numbers, meaning};

    ghost is_at = { IsAt };

    ghost ranges = { ranges };

    ghost layout = { layout };

    ghost vars = { vars };

    ghost can_fill = { CanTake };

    ghost can_say = { CanTake };

    ghost numbers = { numbers };

    ghost meaning = { meaning };

    fn declare(&self, into: &mut System) -> Result<u32, NoMemory> {
        let first = into.add_var(0, 1)?;
        into.add_var(0, 1)?;
        self.declare_signs(into)?;
        Ok(first)
    }

    fn lay(&self, alloc: Global, first: u32, into: &mut System) -> Result<(), NoMemory> {
        let row = into.rows();
        self.add_signs(alloc, first, into)?;
        self.add_sign_difference(alloc, first, into)?;
        self.add_difference(alloc, first, into)?;
        self.add_clauses(alloc, first, row, into)
    }

    fn fill(&self, first: u32, point: &mut [i128]) {
        self.put(first, point);
    }

    fn sound(&self, first: u32, point: &[i128]) -> Val {
        value_at(self.vars(first), point)
    }

    fn stays_calm(&self, _: u32) {}

    fn vars(&self, first: u32) -> ValueVars {
        ValueVars {
            number: first,
            mark: first + 1,
        }
    }
}

impl Compare {
    // Whether the signs of the operands stand among its variables.
    fn needs_signs(&self) -> bool
        ensures { result ≡ needs_signs self.now }
    {
        reads_signs(self.pred) || self.flags.samesign
    }

    // Adds the variables of the signs, where they stand.
    fn declare_signs(&self, into: &mut System) -> Result<(), NoMemory>
        requires room { length into.old.ranges + length
            (sign_ranges (needs_signs self.now)) < 2 ^ 31 }
        ensures { OnOk result (into.new ≡ record into.old {
          ranges = into.old.ranges ++ sign_ranges (needs_signs self.now);
        }) }
    {
        if !self.needs_signs() {
            return Ok(());
        }
        into.add_var(0, 1)?;
        into.add_var(0, 1)?;
        Ok(())
    }

    // The rows and the clauses of the signs, where they stand.
    fn add_signs(&self, alloc: Global, first: u32, into: &mut System) -> Result<(), NoMemory>
        requires at { IsAt self.now first }
        requires known { first + length (ranges self.now) ≤ length into.old.ranges }
        requires few_vars { length into.old.ranges < 2 ^ 31 }
        requires rows { length into.old.rows + length
            (sign_rows (needs_signs self.now) self.now first) < 2 ^ 31 }
        requires room { length into.old.clauses + length
            (sign_clauses_of (needs_signs self.now) self.now) < 2 ^ 31 }
        ensures { OnOk result (into.new ≡ record into.old {
          rows = into.old.rows ++ map row_of (sign_rows (needs_signs self.now) self.now first);
          clauses = into.old.clauses
              ++ map (clause_from (length into.old.rows))
              (sign_clauses_of (needs_signs self.now) self.now);
        }) }
    {
        if !self.needs_signs() {
            return Ok(());
        }
        let left = first + 1 + 1;
        add_sign(alloc, into, self.width, self.a.number, left)?;
        add_sign(alloc, into, self.width, self.b.number, left + 1)
    }

    // The row of the signs' difference, where they have to be the same.
    fn add_sign_difference(
        &self,
        alloc: Global,
        first: u32,
        into: &mut System,
    ) -> Result<(), NoMemory>
        requires known { first + length (ranges self.now) ≤ length into.old.ranges }
        requires few_vars { length into.old.ranges < 2 ^ 31 }
        requires rows { length into.old.rows + length
            (sign_difference self.now.flags.samesign first) < 2 ^ 31 }
        ensures { OnOk result (into.new ≡ record into.old {
          rows = into.old.rows ++ map row_of (sign_difference self.now.flags.samesign first);
        }) }
    {
        if !self.flags.samesign {
            return Ok(());
        }
        let left = first + 1 + 1;
        add_sum(alloc, into, &[times(1, left), times(-1, left + 1)])?;
        Ok(())
    }

    // The row of the operands' difference, or of that of their signed readings.
    fn add_difference(&self, alloc: Global, first: u32, into: &mut System) -> Result<(), NoMemory>
        requires at { IsAt self.now first }
        requires known { first + length (ranges self.now) ≤ length into.old.ranges }
        requires few_vars { length into.old.ranges < 2 ^ 31 }
        requires rows { length into.old.rows + 1 < 2 ^ 31 }
        ensures { OnOk result (into.new ≡ record into.old {
          rows = into.old.rows
              ++ row_of (difference_row (reads_signs self.now.pred) self.now first) ∷ [];
        }) }
    {
        if !reads_signs(self.pred) {
            let parts = [times(1, self.a.number), times(-1, self.b.number)];
            add_sum(alloc, into, &parts)?;
            return Ok(());
        }
        let left = first + 1 + 1;
        let parts = [
            times(1, self.a.number),
            times(-power(self.width), left),
            times(-1, self.b.number),
            times(power(self.width), left + 1),
        ];
        add_sum(alloc, into, &parts)?;
        Ok(())
    }

    // The clauses behind those of the signs, over the rows from this one on.
    fn add_clauses(
        &self,
        alloc: Global,
        first: u32,
        row: u32,
        into: &mut System,
    ) -> Result<(), NoMemory>
        requires at { IsAt self.now first }
        requires known { first + 1 < length into.old.ranges }
        requires few_vars { length into.old.ranges < 2 ^ 31 }
        requires rows { row + length (layout self.now first).rows ≤ length into.old.rows }
        requires few { length into.old.rows < 2 ^ 31 }
        requires room { length into.old.clauses + length (value_clauses (reads_signs self.now.pred)
            self.now.flags.samesign self.now first) < 2 ^ 31 }
        ensures { OnOk result (into.new ≡ record into.old {
          clauses = into.old.clauses ++ map (clause_from row)
              (value_clauses (reads_signs self.now.pred) self.now.flags.samesign self.now first);
        }) }
    {
        add_compared(alloc, into, self.pred, first, row + self.difference_at())?;
        self.add_marks(alloc, first + 1, row, into)
    }

    // The number of the last row, counted from the piece's first.
    fn difference_at(&self) -> u32
        ensures { result ≡ difference_at (reads_signs self.now.pred) self.now.flags.samesign }
    {
        if self.flags.samesign {
            return 3;
        }
        if reads_signs(self.pred) { 2 } else { 0 }
    }

    // The clauses of the mark, over the rows from this one on.
    fn add_marks(
        &self,
        alloc: Global,
        mark: u32,
        row: u32,
        into: &mut System,
    ) -> Result<(), NoMemory>
        requires at { IsAt self.now mark }
        requires mark { mark < length into.old.ranges }
        requires rows { row + length (layout self.now mark).rows ≤ length into.old.rows }
        requires few { length into.old.rows < 2 ^ 31 }
        requires room { length into.old.clauses + length
            (mark_clauses self.now.flags.samesign self.now mark) < 2 ^ 31 }
        ensures { OnOk result (into.new ≡ record into.old {
          clauses = into.old.clauses ++ map (clause_from row)
              (mark_clauses self.now.flags.samesign self.now mark);
        }) }
    {
        let operands = [self.a.mark, self.b.mark];
        if !self.flags.samesign {
            return add_marks(alloc, into, mark, &operands, &[]);
        }
        let term = Term::Row(row + 2);
        let differ = [at_least(term, 1), at_most(term, -1)];
        add_marks(alloc, into, mark, &operands, &differ)
    }

    // Writes the numbers.
    fn put(&self, first: u32, point: &mut [i128])
        requires at { IsAt self.now first }
        requires known { first + length (ranges self.now) ≤ length point.old }
        requires few { length point.old < 2 ^ 31 }
        requires operands { CanTake self.now point.old }
        ensures { point.new ≡ put_from first (numbers self.now point.old) point.old }
    {
        let (a, b) = (point[self.a.number as usize], point[self.b.number as usize]);
        let number = mark_of(self.holds(a, b));
        let mark = mark_of(self.is_poison(point));
        point[first as usize] = number;
        point[first as usize + 1] = mark;
        self.put_signs(first + 1 + 1, a, b, point);
    }

    // Writes the signs, where they stand, from this variable on.
    fn put_signs(&self, left: u32, a: i128, b: i128, point: &mut [i128])
        requires width { IsWidth self.now.width }
        requires known { left + length (sign_ranges (needs_signs self.now)) ≤ length point.old }
        requires few { length point.old < 2 ^ 31 }
        ensures { point.new
            ≡ put_from left (signs (needs_signs self.now) self.now.width a b) point.old }
    {
        if !self.needs_signs() {
            return;
        }
        point[left as usize] = sign_of(self.width, a);
        point[left as usize + 1] = sign_of(self.width, b);
    }

    // Whether the predicate holds of two numbers.
    fn holds(&self, a: i128, b: i128) -> bool
        requires width { IsWidth self.now.width }
        requires left { IsNumber self.now.width a }
        requires right { IsNumber self.now.width b }
        ensures { result ≡ holds_of self.now.pred self.now.width a b }
    {
        stands_so(self.pred, self.read(a), self.read(b))
    }

    // What the predicate compares of a number.
    fn read(&self, number: i128) -> i128
        requires width { IsWidth self.now.width }
        requires number { IsNumber self.now.width number }
        ensures { result ≡ read_as (reads_signs self.now.pred) self.now.width number }
    {
        if reads_signs(self.pred) {
            reading(self.width, number)
        } else {
            number
        }
    }

    // Whether an operand is poison, or signs differ that have to be the same.
    fn is_poison(&self, point: &[i128]) -> bool
        requires at { IsAt self.now (length point.now) }
        ensures { result ≡ is_poison self.now point.now }
    {
        let (a, b) = (point[self.a.number as usize], point[self.b.number as usize]);
        let is_barred = self.flags.samesign && signs_differ(self.width, a, b);
        is_marked(self.a, point) || is_marked(self.b, point) || is_barred
    }
}

// Whether the predicate compares signed readings.
fn reads_signs(pred: Pred) -> bool
    ensures { result ≡ reads_signs pred }
{
    match pred {
        Pred::Sgt | Pred::Sge | Pred::Slt | Pred::Sle => true,
        Pred::Eq | Pred::Ne | Pred::Ugt | Pred::Uge | Pred::Ult | Pred::Ule => false,
    }
}

// Whether two numbers stand to each other as the predicate says.
fn stands_so(pred: Pred, x: i128, y: i128) -> bool
    ensures { result ≡ stands_so pred x y }
{
    match pred {
        Pred::Eq => x == y,
        Pred::Ne => x != y,
        Pred::Ult | Pred::Slt => x < y,
        Pred::Ule | Pred::Sle => x <= y,
        Pred::Ugt | Pred::Sgt => x > y,
        Pred::Uge | Pred::Sge => x >= y,
    }
}

// Whether the signed reading of just one of two numbers of the width is negative.
fn signs_differ(width: u32, a: i128, b: i128) -> bool
    requires width { IsWidth width }
    ensures { result ≡ signs_differ width a b }
{
    sign_of(width, a) != sign_of(width, b)
}

// The signed reading of a number of the width.
fn reading(width: u32, number: i128) -> i128
    requires width { IsWidth width }
    requires number { IsNumber width number }
    ensures { result ≡ reading width number }
{
    if number < power(width - 1) {
        number
    } else {
        number - power(width)
    }
}

// Adds the clauses by which a number is 1 just where a row's sum stands to 0 as the predicate says.
fn add_compared(
    alloc: Global,
    into: &mut System,
    pred: Pred,
    number: u32,
    row: u32,
) -> Result<(), NoMemory>
    requires number { number < length into.old.ranges }
    requires row { row < length into.old.rows }
    requires room { length into.old.clauses + length (compared pred number row) < 2 ^ 31 }
    ensures { OnOk result (into.new ≡ record into.old {
      clauses = into.old.clauses ++ map clause_of (compared pred number row);
    }) }
{
    let (fails, passes) = (
        at_most(Term::Var(number), 0),
        at_least(Term::Var(number), 1),
    );
    let sum = Term::Row(row);
    match pred {
        Pred::Eq => add_equal(alloc, into, fails, passes, row),
        Pred::Ne => add_equal(alloc, into, passes, fails, row),
        Pred::Ult | Pred::Slt => {
            add_lits(alloc, into, &[fails, at_most(sum, -1)])?;
            add_lits(alloc, into, &[passes, at_least(sum, 0)])
        }
        Pred::Ule | Pred::Sle => {
            add_lits(alloc, into, &[fails, at_most(sum, 0)])?;
            add_lits(alloc, into, &[passes, at_least(sum, 1)])
        }
        Pred::Ugt | Pred::Sgt => {
            add_lits(alloc, into, &[fails, at_least(sum, 1)])?;
            add_lits(alloc, into, &[passes, at_most(sum, 0)])
        }
        Pred::Uge | Pred::Sge => {
            add_lits(alloc, into, &[fails, at_least(sum, 0)])?;
            add_lits(alloc, into, &[passes, at_most(sum, -1)])
        }
    }
}

// Adds the clauses by which one literal is true where a row's sum isn't 0, the other where it is.
fn add_equal(
    alloc: Global,
    into: &mut System,
    apart: Lit,
    equal: Lit,
    row: u32,
) -> Result<(), NoMemory>
    requires row { row < length into.old.rows }
    requires known { Exists (length into.old.ranges) (length into.old.rows) apart.term }
    requires known_equal { Exists (length into.old.ranges) (length into.old.rows) equal.term }
    requires inner { IsInner apart.bound }
    requires inner_equal { IsInner equal.bound }
    requires room { length into.old.clauses + 3 < 2 ^ 31 }
    ensures { OnOk result (into.new ≡ record into.old {
      clauses = into.old.clauses ++ map clause_of (equal_clauses apart equal row);
    }) }
{
    let sum = Term::Row(row);
    add_lits(alloc, into, &[apart, at_most(sum, 0)])?;
    add_lits(alloc, into, &[apart, at_least(sum, 0)])?;
    add_lits(alloc, into, &[equal, at_most(sum, -1), at_least(sum, 1)])
}
