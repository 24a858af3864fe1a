ghost use Rattle.std.specs.Prelude.{◌≡◌, ◌+◌, ◌*◌, ◌^◌, ◌<◌, ◌≤◌, ◌++◌, map, length, All, OnOk};
ghost use Rattle.wrap_rows.specs.Normal.{row_of, clause_of};
ghost use Rattle.wrap_rows.specs.Layout.{clause_from};
ghost use Rattle.wrap_rows.specs.Piece.{put_from};
ghost use Rattle.wrap_rows.specs.Phi.{StandsBefore, IsAt, ranges, row_for, clauses_for, clauses_from, layout, taken_number, taken_mark, CanFill, numbers};

use crate::blocks::greatest;
use crate::{Piece, ValueVars, add_lits, add_sum, at_least, at_most, times, value_at};
use ir_meaning::Val;
use mix_system::{System, Term};
use std::alloc::Global;
use wx_base::NoMemory;

/// An edge into a phi's block, with the operand that stands for it.
#[derive(Clone, Copy, Debug)]
pub struct Incoming {
    /// The edge's variable, which is 1 where the edge is taken.
    pub edge: u32,
    pub value: ValueVars,
}

/// The value of the operand that stands for the edge by which the block was entered (LLVM Language Reference, `phi`).
///
/// It is filled in wherever at most one edge is taken, and read where exactly one is.
#[derive(Debug, Drop)]
pub struct Phi {
    pub width: u32,
    /// One for each different edge into the block, in the order of their sources.
    pub incoming: Vec<Incoming>,
}

impl Piece for Phi {
    ghost use Rattle.wrap_rows.specs.Phi.{IsAt, ranges, layout, vars, CanFill, CanSay, numbers, meaning};

    ghost is_at = { IsAt };

    ghost ranges = { ranges };

    ghost layout = { layout };

    ghost vars = { vars };

    ghost can_fill = { CanFill };

    ghost can_say = { CanSay };

    ghost numbers = { numbers };

    ghost meaning = { meaning };

    fn declare(&self, into: &mut System) -> Result<u32, NoMemory> {
        let first = into.add_var(0, greatest(self.width))?;
        into.add_var(0, 1)?;
        Ok(first)
    }

    fn lay(&self, alloc: Global, first: u32, into: &mut System) -> Result<(), NoMemory> {
        let row = into.rows();
        let incoming = self.incoming.as_slice();
        add_rows(alloc, first, incoming, into)?;
        add_clauses(alloc, first + 1, row, incoming, into)
    }

    fn fill(&self, first: u32, point: &mut [i128]) {
        self.put(first, point);
    }

    fn sound(&self, first: u32, point: &[i128]) -> Val {
        value_at(self.vars(first), point)
    }

    fn stays_calm(&self, _: u32) {}

    fn vars(&self, first: u32) -> ValueVars {
        ValueVars {
            number: first,
            mark: first + 1,
        }
    }
}

impl Phi {
    // Writes the numbers.
    fn put(&self, first: u32, point: &mut [i128])
        requires at { IsAt self.now first }
        requires known { first + length (ranges self.now) ≤ length point.old }
        requires few { length point.old < 2 ^ 31 }
        requires operands { CanFill self.now point.old }
        ensures { point.new ≡ put_from first (numbers self.now point.old) point.old }
    {
        let incoming = self.incoming.as_slice();
        let number = taken_number(incoming, point);
        let mark = taken_mark(incoming, point);
        point[first as usize] = number;
        point[first as usize + 1] = mark;
    }
}

// The number of the operand whose edge is taken, 0 where none is.
fn taken_number(incoming: &[Incoming], point: &[i128]) -> i128
    requires { All (StandsBefore (length point.now)) incoming.now }
    ensures { result ≡ taken_number point.now incoming.now }
{
    for one in incoming {
        if point[one.edge as usize] == 1 {
            return point[one.value.number as usize];
        }
    }
    0
}

// Its mark, 0 where none is.
fn taken_mark(incoming: &[Incoming], point: &[i128]) -> i128
    requires { All (StandsBefore (length point.now)) incoming.now }
    ensures { result ≡ taken_mark point.now incoming.now }
{
    for one in incoming {
        if point[one.edge as usize] == 1 {
            return point[one.value.mark as usize];
        }
    }
    0
}

// The number's difference from each operand.
fn add_rows(
    alloc: Global,
    first: u32,
    incoming: &[Incoming],
    into: &mut System,
) -> Result<(), NoMemory>
    requires first { first < length into.old.ranges }
    requires known { All (StandsBefore (length into.old.ranges)) incoming.now }
    requires rows { length into.old.rows + length incoming.now < 2 ^ 31 }
    ensures { OnOk result (into.new ≡ record into.old {
      rows = into.old.rows ++ map row_of (map (row_for first) incoming.now);
    }) }
{
    for one in incoming {
        add_sum(alloc, into, &[times(1, first), times(-1, one.value.number)])?;
    }
    Ok(())
}

// The clauses of each edge, over the rows from this one on.
fn add_clauses(
    alloc: Global,
    mark: u32,
    row: u32,
    incoming: &[Incoming],
    into: &mut System,
) -> Result<(), NoMemory>
    requires mark { mark < length into.old.ranges }
    requires known { All (StandsBefore (length into.old.ranges)) incoming.now }
    requires rows { row + length incoming.now ≤ length into.old.rows }
    requires few { length into.old.rows < 2 ^ 31 }
    requires room { length into.old.clauses + 4 * length incoming.now < 2 ^ 31 }
    ensures { OnOk result (into.new ≡ record into.old {
      clauses = into.old.clauses ++ map (clause_from row) (clauses_from 0 mark incoming.now);
    }) }
{
    let mut next = row;
    for one in incoming {
        add_clauses_for(alloc, mark, next, one, into)?;
        next += 1;
    }
    Ok(())
}

// The clauses of an edge.
fn add_clauses_for(
    alloc: Global,
    mark: u32,
    row: u32,
    one: &Incoming,
    into: &mut System,
) -> Result<(), NoMemory>
    requires mark { mark < length into.old.ranges }
    requires known { StandsBefore (length into.old.ranges) one.now }
    requires row { row < length into.old.rows }
    requires room { length into.old.clauses + 4 < 2 ^ 31 }
    ensures { OnOk result (into.new ≡ record into.old {
      clauses = into.old.clauses ++ map clause_of (clauses_for row mark one.now);
    }) }
{
    let off = at_most(Term::Var(one.edge), 0);
    let difference = Term::Row(row);
    let (mark, operand) = (Term::Var(mark), Term::Var(one.value.mark));
    add_lits(alloc, into, &[off, at_most(difference, 0)])?;
    add_lits(alloc, into, &[off, at_least(difference, 0)])?;
    add_lits(alloc, into, &[off, at_least(mark, 1), at_most(operand, 0)])?;
    add_lits(alloc, into, &[off, at_most(mark, 0), at_least(operand, 1)])
}
