ghost use Rattle.std.specs.Prelude.{◌≡◌, ◌+◌, ◌^◌, ◌<◌, ◌≤◌, ◌++◌, map, length, OnOk, if◌then◌else◌};
ghost use Rattle.mix_system.specs.Row.{number_at};
ghost use Rattle.wrap_rows.specs.Normal.{clause_of};
ghost use Rattle.wrap_rows.specs.Layout.{clause_from};
ghost use Rattle.wrap_rows.specs.Piece.{put_from};
ghost use Rattle.wrap_rows.specs.Select.{IsAt, ranges, layout, CanTake, numbers, arm_clauses, raising_clauses, closing_clauses, is_first, is_poison};

use crate::blocks::{greatest, is_marked, mark_of};
use crate::{Piece, ValueVars, add_lits, add_sum, at_least, at_most, times, value_at};
use ir_meaning::Val;
use mix_system::{System, Term};
use std::alloc::Global;
use wx_base::NoMemory;

/// A choice between two values by a condition (LLVM Language Reference, `select`).
#[derive(Clone, Copy, Debug)]
pub struct Select {
    pub width: u32,
    pub cond: ValueVars,
    pub yes: ValueVars,
    pub no: ValueVars,
}

impl Piece for Select {
    ghost use Rattle.wrap_rows.specs.Select.{IsAt, ranges, layout, vars, CanTake, numbers, meaning};

    ghost is_at = { IsAt };

    ghost ranges = { ranges };

    ghost layout = { layout };

    ghost vars = { vars };

    ghost can_fill = { CanTake };

    ghost can_say = { CanTake };

    ghost numbers = { numbers };

    ghost meaning = { meaning };

    fn declare(&self, into: &mut System) -> Result<u32, NoMemory> {
        let first = into.add_var(0, greatest(self.width))?;
        into.add_var(0, 1)?;
        Ok(first)
    }

    fn lay(&self, alloc: Global, first: u32, into: &mut System) -> Result<(), NoMemory> {
        let row = add_sum(alloc, into, &[times(1, first), times(-1, self.yes.number)])?;
        add_sum(alloc, into, &[times(1, first), times(-1, self.no.number)])?;
        self.add_clauses(alloc, first, row, into)
    }

    fn fill(&self, first: u32, point: &mut [i128]) {
        self.put(first, point);
    }

    fn sound(&self, first: u32, point: &[i128]) -> Val {
        value_at(self.vars(first), point)
    }

    fn stays_calm(&self, _: u32) {}

    fn vars(&self, first: u32) -> ValueVars {
        ValueVars {
            number: first,
            mark: first + 1,
        }
    }
}

impl Select {
    // Writes the numbers.
    fn put(&self, first: u32, point: &mut [i128])
        requires at { IsAt self.now first }
        requires known { first + length (ranges self.now) ≤ length point.old }
        requires few { length point.old < 2 ^ 31 }
        requires operands { CanTake self.now point.old }
        ensures { point.new ≡ put_from first (numbers self.now point.old) point.old }
    {
        let number = self.chosen_number(point);
        let mark = mark_of(self.is_poison(point));
        point[first as usize] = number;
        point[first as usize + 1] = mark;
    }

    // The clauses, over the rows from this one on.
    fn add_clauses(
        &self,
        alloc: Global,
        first: u32,
        row: u32,
        into: &mut System,
    ) -> Result<(), NoMemory>
        requires at { IsAt self.now first }
        requires mark { first + 1 < length into.old.ranges }
        requires few_vars { length into.old.ranges < 2 ^ 31 }
        requires rows { row + 1 < length into.old.rows }
        requires few { length into.old.rows < 2 ^ 31 }
        requires room { length into.old.clauses + 9 < 2 ^ 31 }
        ensures { OnOk result (into.new ≡ record into.old {
          clauses = into.old.clauses ++ map (clause_from row) (layout self.now first).clauses;
        }) }
    {
        self.add_arms(alloc, row, into)?;
        self.add_marks(alloc, first + 1, into)
    }

    // The clauses of the mark.
    fn add_marks(&self, alloc: Global, mark: u32, into: &mut System) -> Result<(), NoMemory>
        requires at { IsAt self.now mark }
        requires mark { mark < length into.old.ranges }
        requires room { length into.old.clauses + 5 < 2 ^ 31 }
        ensures { OnOk result (into.new ≡ record into.old {
          clauses =
              into.old.clauses ++ map clause_of (raising_clauses self.now mark
              ++ closing_clauses self.now mark);
        }) }
    {
        self.add_raising(alloc, mark, into)?;
        self.add_closing(alloc, mark, into)
    }

    // The number is that of the arm. The rows are its differences from the arms.
    fn add_arms(&self, alloc: Global, row: u32, into: &mut System) -> Result<(), NoMemory>
        requires cond { self.now.cond.number < length into.old.ranges }
        requires rows { row + 1 < length into.old.rows }
        requires few { length into.old.rows < 2 ^ 31 }
        requires room { length into.old.clauses + 4 < 2 ^ 31 }
        ensures { OnOk result (into.new ≡ record into.old {
          clauses = into.old.clauses ++ map (clause_from row) (arm_clauses self.now);
        }) }
    {
        let cond = Term::Var(self.cond.number);
        let (first, second) = (Term::Row(row), Term::Row(row + 1));
        add_lits(alloc, into, &[at_most(cond, 0), at_most(first, 0)])?;
        add_lits(alloc, into, &[at_most(cond, 0), at_least(first, 0)])?;
        add_lits(alloc, into, &[at_least(cond, 1), at_most(second, 0)])?;
        add_lits(alloc, into, &[at_least(cond, 1), at_least(second, 0)])
    }

    // The mark is 1 where that of the condition is, or of the arm.
    fn add_raising(&self, alloc: Global, mark: u32, into: &mut System) -> Result<(), NoMemory>
        requires at { IsAt self.now mark }
        requires mark { mark < length into.old.ranges }
        requires room { length into.old.clauses + 3 < 2 ^ 31 }
        ensures { OnOk result (into.new ≡ record into.old {
          clauses = into.old.clauses ++ map clause_of (raising_clauses self.now mark);
        }) }
    {
        let cond = Term::Var(self.cond.number);
        let up = at_least(Term::Var(mark), 1);
        add_lits(alloc, into, &[up, at_most(Term::Var(self.cond.mark), 0)])?;
        add_lits(
            alloc,
            into,
            &[at_most(cond, 0), up, at_most(Term::Var(self.yes.mark), 0)],
        )?;
        add_lits(
            alloc,
            into,
            &[at_least(cond, 1), up, at_most(Term::Var(self.no.mark), 0)],
        )
    }

    // And nowhere else.
    fn add_closing(&self, alloc: Global, mark: u32, into: &mut System) -> Result<(), NoMemory>
        requires at { IsAt self.now mark }
        requires mark { mark < length into.old.ranges }
        requires room { length into.old.clauses + 2 < 2 ^ 31 }
        ensures { OnOk result (into.new ≡ record into.old {
          clauses = into.old.clauses ++ map clause_of (closing_clauses self.now mark);
        }) }
    {
        let cond = Term::Var(self.cond.number);
        let down = at_most(Term::Var(mark), 0);
        let cond_mark = at_least(Term::Var(self.cond.mark), 1);
        let yes_mark = at_least(Term::Var(self.yes.mark), 1);
        let no_mark = at_least(Term::Var(self.no.mark), 1);
        add_lits(alloc, into, &[down, cond_mark, at_most(cond, 0), yes_mark])?;
        add_lits(alloc, into, &[down, cond_mark, at_least(cond, 1), no_mark])
    }

    // The number of the arm that the condition's number names.
    fn chosen_number(&self, point: &[i128]) -> i128
        requires at { IsAt self.now (length point.now) }
        ensures { result ≡ (if is_first self.now point.now
            then number_at point.now self.now.yes.number
            else (number_at point.now self.now.no.number)) }
    {
        if point[self.cond.number as usize] == 1 {
            point[self.yes.number as usize]
        } else {
            point[self.no.number as usize]
        }
    }

    // Whether the condition is poison, or the arm that its number names.
    fn is_poison(&self, point: &[i128]) -> bool
        requires at { IsAt self.now (length point.now) }
        ensures { result ≡ is_poison self.now point.now }
    {
        if is_marked(self.cond, point) {
            return true;
        }
        if point[self.cond.number as usize] == 1 {
            is_marked(self.yes, point)
        } else {
            is_marked(self.no, point)
        }
    }
}
