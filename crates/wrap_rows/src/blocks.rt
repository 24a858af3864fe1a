ghost use Rattle.std.specs.Prelude.{◌≡◌, ◌+◌, ◌-◌, ◌^◌, ◌<◌, ◌≤◌, ◌++◌, ◌∷◌, [], pos, map, length, OnOk};
ghost use Rattle.mix_system.specs.System.{IsInner};
ghost use Rattle.ir_meaning.specs.Whole.{IsWidth};
ghost use Rattle.wrap_rows.specs.Normal.{row_of, clause_of};
ghost use Rattle.wrap_rows.specs.Blocks.{equals, sign_of, sign_row, sign_clauses};
ghost use Rattle.wrap_rows.specs.Piece.{mark_of};
ghost use Rattle.wrap_rows.specs.Vars.{is_marked};

use crate::normal::{add_lits, add_sum};
use crate::{ValueVars, at_least, at_most, times};
use mix_system::{System, Term};
use std::alloc::Global;
use wx_base::NoMemory;

/// `2^exponent`.
pub fn power(exponent: u32) -> i128
    requires { exponent < 63 }
    ensures { result ≡ pos (2 ^ exponent) }
{
    i128::from(1u64 << exponent)
}

/// The greatest number of a width.
pub fn greatest(width: u32) -> i128
    requires { width < 63 }
    ensures { result ≡ pos (2 ^ width - 1) }
{
    i128::from((1u64 << width) - 1)
}

/// `2^to - 2^from`.
pub fn gap(from: u32, to: u32) -> i128
    requires order { from ≤ to }
    requires width { to < 63 }
    ensures { result ≡ pos (2 ^ to - 2 ^ from) }
{
    i128::from((1u64 << to) - (1u64 << from))
}

/// 1 where the test holds, else 0.
pub fn mark_of(test: bool) -> i128
    ensures { result ≡ mark_of test }
{
    if test { 1 } else { 0 }
}

/// Whether a value's mark is 1.
pub fn is_marked(vars: ValueVars, point: &[i128]) -> bool
    requires { vars.mark < length point.now }
    ensures { result ≡ is_marked vars point.now }
{
    point[vars.mark as usize] == 1
}

/// 1 where the signed reading of a number of the width is negative, else 0.
pub fn sign_of(width: u32, number: i128) -> i128
    requires { IsWidth width }
    ensures { result ≡ sign_of width number }
{
    if number < power(width - 1) { 0 } else { 1 }
}

/// Adds the two clauses by which a row's sum is a number.
///
/// After want of memory one of them may stand.
pub fn add_equation(
    alloc: Global,
    into: &mut System,
    row: u32,
    number: i128,
) -> Result<(), NoMemory>
    requires row { row < length into.old.rows }
    requires inner { IsInner number }
    requires room { length into.old.clauses + 2 < 2 ^ 31 }
    ensures { OnOk result (into.new ≡ record into.old {
      clauses = into.old.clauses ++ map clause_of (equals row number);
    }) }
{
    add_lits(alloc, into, &[at_most(Term::Row(row), number)])?;
    add_lits(alloc, into, &[at_least(Term::Row(row), number)])
}

/// Adds the row and the clauses by which one variable is the sign of another, a number of the width.
///
/// After want of memory some of them may stand.
pub fn add_sign(
    alloc: Global,
    into: &mut System,
    width: u32,
    number: u32,
    sign: u32,
) -> Result<(), NoMemory>
    requires width { IsWidth width }
    requires number { number < length into.old.ranges }
    requires sign { sign < length into.old.ranges }
    requires rows { length into.old.rows + 1 < 2 ^ 31 }
    requires room { length into.old.clauses + 2 < 2 ^ 31 }
    ensures { OnOk result (into.new ≡ record into.old {
      rows = into.old.rows ++ row_of (sign_row width number sign) ∷ [];
      clauses = into.old.clauses ++ map clause_of (sign_clauses width (length into.old.rows));
    }) }
{
    let parts = [times(1, number), times(-power(width - 1), sign)];
    let row = add_sum(alloc, into, &parts)?;
    add_lits(alloc, into, &[at_least(Term::Row(row), 0)])?;
    add_lits(alloc, into, &[at_most(Term::Row(row), greatest(width - 1))])
}
