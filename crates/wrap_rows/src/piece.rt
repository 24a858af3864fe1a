ghost use Rattle.std.specs.Prelude.{◌≡◌, ◌+◌, ◌^◌, ◌<◌, ◌≤◌, ◌++◌, ℕ, ℤ, List, length, true, All, IfOk, OnOk};
ghost use Rattle.ir_meaning.specs.declared.value.Val.{Val as Value};
ghost use Rattle.wrap_rows.specs.declared.vars.ValueVars.{ValueVars as Vars};
ghost use Rattle.wrap_rows.specs.Layout.{Layout, Holds};
ghost use Rattle.wrap_rows.specs.Vars.{value_at};
ghost use Rattle.wrap_rows.specs.Piece.{Lays, put_from, AreIn, names_own_rows};
ghost use Rattle.wrap_rows.specs.Small.{IsNarrow, IsSmall};

use crate::ValueVars;
use ir_meaning::Val;
use mix_system::System;
use std::alloc::Global;
use wx_base::NoMemory;

/// The part of a system that stands for one operation: variables of its own, rows and clauses.
///
/// A piece is the operation with its operands. Where its own variables stand, one behind the other, is told by the number of the first,
/// which `declare` gives and which is handed to the other calls.
pub trait Piece {
    /// The widths are right, and the variables of the operands stand before the piece's own.
    ghost is_at: { Self → ℕ → Type 0 };

    /// The ranges of its own variables, in order.
    ghost ranges: { Self → List (ℤ × ℤ) };

    /// Its rows and clauses.
    ghost layout: { Self → ℕ → Layout };

    /// Where number and mark of its value stand.
    ghost vars: { Self → ℕ → Vars };

    /// What is asked of the operands where its variables are filled in.
    ghost can_fill: { Self → List ℤ → Type 0 };

    /// What is asked of the operands where its value is read.
    ghost can_say: { Self → List ℤ → Type 0 };

    /// The numbers of its own variables, in order, by those of its operands.
    ghost numbers: { Self → List ℤ → List ℤ };

    /// The value that the operation has on the values of its operands.
    ghost meaning: { Self → List ℤ → Value };

    /// Adds its own variables, and gives the number of the first.
    ///
    /// After want of memory some of them may stand.
    fn declare(&self, into: &mut System) -> Result<u32, NoMemory>
        requires at { is_at self.now (length into.old.ranges) }
        requires room { length into.old.ranges + length (ranges self.now) < 2 ^ 31 }
        ensures number { IfOk result (λ first. first ≡ length into.old.ranges) }
        ensures ok { OnOk result (into.new ≡ record into.old {
          ranges = into.old.ranges
              ++ ranges self.now;
        }) };

    /// Adds its rows and clauses, which name no other rows.
    ///
    /// After want of memory some of them may stand.
    fn lay(&self, alloc: Global, first: u32, into: &mut System) -> Result<(), NoMemory>
        requires at { is_at self.now first }
        requires known { first + length (ranges self.now) ≤ length into.old.ranges }
        requires few_vars { length into.old.ranges < 2 ^ 31 }
        requires rows { length into.old.rows + length (layout self.now first).rows < 2 ^ 31 }
        requires clauses { length into.old.clauses + length
            (layout self.now first).clauses < 2 ^ 31 }
        ensures ok { OnOk result (Lays (layout self.now first) into.old into.new) }
        ensures own_rows { names_own_rows (layout self.now first) ≡ true };

    /// Writes the numbers of its own variables, and changes no others. It takes no memory.
    ///
    /// Whatever the operands are, its own variables then lie in their ranges, and its clauses are true.
    fn fill(&self, first: u32, point: &mut [i128])
        requires at { is_at self.now first }
        requires known { first + length (ranges self.now) ≤ length point.old }
        requires few { length point.old < 2 ^ 31 }
        requires operands { can_fill self.now point.old }
        ensures kept { point.new ≡ put_from first (numbers self.now point.old) point.old }
        ensures in_ranges { AreIn first (ranges self.now) point.new }
        ensures complete { Holds (layout self.now first) point.new };

    /// The value that number and mark stand for. Where its own variables lie in their ranges and its clauses are true,
    /// it is the operation's value.
    fn sound(&self, first: u32, point: &[i128]) -> Val
        requires at { is_at self.now first }
        requires known { first + length (ranges self.now) ≤ length point.now }
        requires few { length point.now < 2 ^ 31 }
        requires operands { can_say self.now point.now }
        requires in_ranges { AreIn first (ranges self.now) point.now }
        requires holds { Holds (layout self.now first) point.now }
        ensures read { result ≡ value_at (vars self.now first) point.now }
        ensures sound { result ≡ meaning self.now point.now };

    /// It does nothing. Its ranges are narrow, and the numbers of its rows and clauses are small.
    fn stays_calm(&self, first: u32)
        requires at { is_at self.now first }
        ensures narrow { All IsNarrow (ranges self.now) }
        ensures small { IsSmall (layout self.now first) };

    /// Where number and mark of its value stand.
    fn vars(&self, first: u32) -> ValueVars
        requires { first + length (ranges self.now) < 2 ^ 31 }
        ensures { result ≡ vars self.now first };
}
