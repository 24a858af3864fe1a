ghost use Rattle.std.specs.Prelude.{◌≡◌, ◌≢◌, ℕ, ◌<◌, ◌+◌, ℤ, pos, ◌+ℤ◌, ◌*ℤ◌, ◌-ℤ◌, ◌<ℤ◌, neg_ℤ, unsigned_abs, FitsSigned, All, IfOk, IfErr, OnOk};
ghost use Rattle.std.specs.Int.{w128};
ghost use Rattle.tableau_rows.specs.Equation.{total as total_of, IsSparse as IsSparseList};
ghost use Rattle.wx_num.specs.Excess.{Overflows};

use crate::merge::{least_column, split_front};
use crate::quotient::quotient;
use crate::{Entry, Equation};
use std::alloc::Global;
use wx_base::NoMemory;
use wx_num::{Excess, Num, NumOp};

/// One equation that is put into another for the column that enters, with the factors of both.
#[derive(Debug, Drop)]
pub(crate) struct Substitution<'a> {
    pub(crate) row: &'a Equation,
    pub(crate) pivot: &'a Equation,
    pub(crate) entering: u32,
    pub(crate) of_row: i128,
    pub(crate) of_pivot: i128,
}

impl Substitution<'_> {
    ghost use Rattle.tableau_rows.specs.Equation.{total, coefficient, IsSparse};
    ghost use Rattle.tableau_rows.specs.Substitution.{taken, sum_at, IsStep};
    ghost use Rattle.tableau_rows.specs.Proper.{turned, IsProper};

    /// Puts the pivot into the row for the column that enters.
    pub(crate) fn new<'a>(row: &'a Equation, pivot: &'a Equation, entering: u32) -> Substitution<'a>
        requires pivot_takes { taken pivot.now entering ≢ pos 0 }
        requires row_takes { taken row.now entering ≢ pos 0 }
        requires apart { row.now.basic ≢ pivot.now.basic }
        requires pivot_without { taken pivot.now row.now.basic ≡ pos 0 }
        requires row_without { taken row.now pivot.now.basic ≡ pos 0 }
        ensures proper { IsProper result }
        ensures row { result.row.now ≡ row.entry.now }
        ensures pivot { result.pivot.now ≡ pivot.entry.now }
        ensures entering { result.entering ≡ entering }
    {
        let in_pivot = pivot.coefficient(entering);
        let in_row = row.coefficient(entering);
        let divisor = Num::gcd(in_pivot.unsigned_abs(), in_row.unsigned_abs());
        Substitution {
            row,
            pivot,
            entering,
            of_row: quotient(in_pivot, divisor),
            of_pivot: quotient(in_row, divisor),
        }
    }

    /// The entries of the row where the pivot is put into it, before they are reduced.
    pub(crate) fn entries(&self, alloc: Global) -> Result<Result<Vec<Entry>, Excess>, NoMemory>
        requires proper { IsProper self.now }
        ensures sparse { IfOk result (λ found. IfOk found (λ entries. IsSparse entries.items)) }
        ensures sums { IfOk result (λ found. IfOk found (λ entries. (number : ℕ → ℤ)
            → total number entries.items
            ≡ turned self.now.of_row (self.now.of_row *ℤ sum_at number self.now.row.now
            -ℤ self.now.of_pivot *ℤ sum_at number self.now.pivot.now))) }
        ensures own { IfOk result (λ found. IfOk found
            (λ entries. FitsSigned w128
            (neg_ℤ (coefficient entries.items self.now.row.now.basic)))) }
        ensures step { IfOk result (λ found. IfErr found
            (IsStep self.now.row.now self.now.pivot.now self.now.of_row self.now.of_pivot
            self.now.entering)) }
        ensures overflows { IfOk result (λ found. IfErr found Overflows) }
    {
        let mut entries = Vec::new(alloc);
        let mut left = self.row.entries.as_slice();
        let mut right = self.pivot.entries.as_slice();
        while let Some(column) = least_column(left, right) {
            let (in_row, after_left) = split_front(left, column);
            let (in_pivot, after_right) = split_front(right, column);
            left = after_left;
            right = after_right;
            if column != self.entering {
                match self.coefficient(column, in_row, in_pivot) {
                    Ok(coeff) => put(&mut entries, Entry { column, coeff })?,
                    Err(excess) => return Ok(Err(excess)),
                }
            }
        }
        Ok(Ok(entries))
    }

    // The new coefficient of a column that both equations take so often.
    pub(crate) fn coefficient(
        &self,
        column: u32,
        in_row: i128,
        in_pivot: i128,
    ) -> Result<i128, Excess>
        requires proper { IsProper self.now }
        requires stays { column ≢ self.now.entering }
        requires row { in_row ≡ taken self.now.row.now column }
        requires pivot { in_pivot ≡ taken self.now.pivot.now column }
        ensures value { IfOk result (λ z. z ≡ turned self.now.of_row
            (self.now.of_row *ℤ in_row -ℤ self.now.of_pivot *ℤ in_pivot)) }
        ensures own { column ≡ self.now.row.now.basic
            → IfOk result (λ z. FitsSigned w128 (neg_ℤ z)) }
        ensures step { IfErr result
            (IsStep self.now.row.now self.now.pivot.now self.now.of_row self.now.of_pivot
            self.now.entering) }
        ensures overflows { IfErr result Overflows }
    {
        if column == self.row.basic {
            return self.own();
        }
        if column == self.pivot.basic {
            return self.leaving();
        }
        self.other(column, in_row, in_pivot)
    }

    // That of the row's own column: the new denominator with its sign turned.
    fn own(&self) -> Result<i128, Excess>
        requires proper { IsProper self.now }
        ensures value { IfOk result (λ z. z ≡ turned self.now.of_row
            (self.now.of_row *ℤ taken self.now.row.now self.now.row.now.basic)) }
        ensures own { IfOk result (λ z. FitsSigned w128 (neg_ℤ z)) }
        ensures step { IfErr result
            (IsStep self.now.row.now self.now.pivot.now self.now.of_row self.now.of_pivot
            self.now.entering) }
        ensures overflows { IfErr result Overflows }
    {
        match Num::mul(self.of_row, self.row.denominator) {
            Ok(product) => match self.oriented(product) {
                Ok(denominator) => Ok(-denominator),
                Err(excess) => Err(excess),
            },
            Err(excess) => Err(excess),
        }
    }

    // That of the column that leaves the basis.
    fn leaving(&self) -> Result<i128, Excess>
        requires proper { IsProper self.now }
        ensures value { IfOk result (λ z. z ≡ turned self.now.of_row
            (self.now.of_pivot *ℤ self.now.pivot.now.denominator)) }
        ensures step { IfErr result
            (IsStep self.now.row.now self.now.pivot.now self.now.of_row self.now.of_pivot
            self.now.entering) }
        ensures overflows { IfErr result Overflows }
    {
        match Num::mul(self.of_pivot, self.pivot.denominator) {
            Ok(product) => self.oriented(product),
            Err(excess) => Err(excess),
        }
    }

    // That of each other column.
    fn other(&self, column: u32, in_row: i128, in_pivot: i128) -> Result<i128, Excess>
        requires stays { column ≢ self.now.entering }
        requires row { in_row ≡ taken self.now.row.now column }
        requires pivot { in_pivot ≡ taken self.now.pivot.now column }
        ensures value { IfOk result (λ z. z ≡ turned self.now.of_row
            (self.now.of_row *ℤ in_row -ℤ self.now.of_pivot *ℤ in_pivot)) }
        ensures step { IfErr result
            (IsStep self.now.row.now self.now.pivot.now self.now.of_row self.now.of_pivot
            self.now.entering) }
        ensures overflows { IfErr result Overflows }
    {
        let from_row = match Num::mul(self.of_row, in_row) {
            Ok(product) => product,
            Err(excess) => return Err(excess),
        };
        let from_pivot = match Num::mul(self.of_pivot, in_pivot) {
            Ok(product) => product,
            Err(excess) => return Err(excess),
        };
        match Num::sub(from_row, from_pivot) {
            Ok(difference) => self.oriented(difference),
            Err(excess) => Err(excess),
        }
    }

    // The number, with its sign turned where the row's factor is below 0.
    fn oriented(&self, number: i128) -> Result<i128, Excess>
        ensures value { IfOk result (λ z. z ≡ turned self.now.of_row number) }
        ensures turned { IfErr result (λ excess. (self.now.of_row <ℤ pos 0)
            × (excess ≡ record { op = NumOp.Minus; x = pos 0; y = number })) }
        ensures overflows { IfErr result Overflows }
    {
        if self.of_row < 0 {
            return Num::sub(0, number);
        }
        Ok(number)
    }
}

// Adds an entry at the end, unless its coefficient is 0.
fn put(entries: &mut Vec<Entry>, entry: Entry) -> Result<(), NoMemory>
    requires sparse { IsSparseList entries.old.items }
    requires last { All (λ before. before.column < entry.column) entries.old.items }
    ensures sparse { OnOk result (IsSparseList entries.new.items) }
    ensures last { OnOk result
        (All (λ before. before.column < entry.column + 1) entries.new.items) }
    ensures sums { OnOk result ((number : ℕ → ℤ) → total_of number entries.new.items
        ≡ total_of number entries.old.items +ℤ entry.coeff *ℤ number entry.column) }
{
    if entry.coeff != 0 {
        entries.push(entry)?;
    }
    Ok(())
}
