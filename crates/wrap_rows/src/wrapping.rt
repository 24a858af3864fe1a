// What pieces share whose number is an exact result modulo `2^width`.
ghost use Rattle.std.specs.Prelude.{◌≡◌, ◌-◌, ◌^◌, ◌≤◌, ◌≤ℤ◌, ◌<ℤ◌, ◌-ℤ◌, ◌+◌, ◌<◌, ◌++◌, pos, neg_ℤ, true, map, take, drop, length, unsigned_abs, All, OnOk};
ghost use Rattle.ir_meaning.specs.Whole.{IsWidth, signed, is_unsigned, is_signed};
ghost use Rattle.wrap_rows.specs.Vars.{IsNumber};
ghost use Rattle.wrap_rows.specs.Layout.{at_most};
ghost use Rattle.wrap_rows.specs.Normal.{clause_of};
ghost use Rattle.wrap_rows.specs.Blocks.{marks};
ghost use Rattle.wrap_rows.specs.Wrapping.{listed, literals, bars};

use crate::blocks::power;
use crate::{add_marks, at_least, at_most};
use ll_tree::Flags;
use mix_system::{Lit, System, Term};
use std::alloc::Global;
use wx_base::NoMemory;

/// What the flags of wrapping list of an exact result that is brought back to the numbers of the width:
/// the variable of the carry, and the row of the exact signed result.
#[derive(Clone, Copy, Debug)]
pub struct Wrapped {
    pub flags: Flags,
    pub width: u32,
    pub carry: u32,
    pub row: u32,
}

/// Adds the clauses of the mark of such a result.
///
/// After want of memory some of them may stand.
pub fn add_wrapped_marks(
    alloc: Global,
    into: &mut System,
    mark: u32,
    operands: &[u32],
    wrapped: Wrapped,
) -> Result<(), NoMemory>
    requires width { IsWidth wrapped.width }
    requires mark { mark < length into.old.ranges }
    requires operands { All (λ operand. operand < length into.old.ranges) operands.now }
    requires carry { wrapped.carry < length into.old.ranges }
    requires row { wrapped.flags.nsw ≡ true → wrapped.row < length into.old.rows }
    requires room { length into.old.clauses + length
        (marks mark operands.now (literals wrapped)) < 2 ^ 31 }
    ensures { OnOk result (into.new ≡ record into.old {
      clauses = into.old.clauses ++ map clause_of (marks mark operands.now (literals wrapped));
    }) }
{
    let (carry, row) = (Term::Var(wrapped.carry), Term::Row(wrapped.row));
    let lits = [
        at_least(carry, 1),
        at_most(carry, -1),
        at_least(row, power(wrapped.width - 1)),
        below_signed(wrapped.width, row),
    ];
    let listed = listed(wrapped.flags, 2, &lits);
    add_marks(alloc, into, mark, operands, listed)
}

/// The literals that flags list. The first so many are those of `nuw`, the others those of `nsw`.
pub fn listed(flags: Flags, leaving: usize, lits: &[Lit]) -> &[Lit]
    requires { leaving ≤ length lits.now }
    ensures { result.now ≡ listed flags.nuw flags.nsw
        (take leaving lits.now) (drop leaving lits.now) }
{
    let from = if flags.nuw { 0 } else { leaving };
    let to = if flags.nsw { lits.len() } else { leaving };
    &lits[from..to]
}

/// A row's sum lies below the signed numbers of the width.
pub fn below_signed(width: u32, row: Term) -> Lit
    requires { IsWidth width }
    ensures { result ≡ at_most row (neg_ℤ (pos (2 ^ (width - 1))) -ℤ pos 1) }
{
    at_most(row, -power(width - 1) - 1)
}

/// Whether a flag bars an exact result, given the exact result of the signed readings.
pub fn is_barred(flags: Flags, width: u32, exact: i128, exact_signed: i128) -> bool
    requires { IsWidth width }
    ensures { result ≡ bars flags width exact exact_signed }
{
    let leaves = !is_unsigned(width, exact);
    let exceeds = !is_signed(width, exact_signed);
    (flags.nuw && leaves) || (flags.nsw && exceeds)
}

// Whether a number lies in `0 .. 2^width - 1`.
fn is_unsigned(width: u32, z: i128) -> bool
    requires { IsWidth width }
    ensures { result ≡ is_unsigned width z }
{
    0 <= z && z < power(width)
}

// Whether a number lies in `-2^(width - 1) .. 2^(width - 1) - 1`.
fn is_signed(width: u32, z: i128) -> bool
    requires { IsWidth width }
    ensures { result ≡ is_signed width z }
{
    let half = power(width - 1);
    -half <= z && z < half
}

/// The signed reading of a number of the width.
pub fn signed_of(width: u32, number: i128) -> i128
    requires width { IsWidth width }
    requires number { IsNumber width number }
    ensures value { result ≡ signed width (unsigned_abs number) }
    ensures least { neg_ℤ (pos (2 ^ (width - 1))) ≤ℤ result }
    ensures greatest { result <ℤ pos (2 ^ (width - 1)) }
{
    if number < power(width - 1) {
        number
    } else {
        number - power(width)
    }
}
