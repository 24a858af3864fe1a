ghost use Rattle.std.specs.Prelude.{◌≡◌, ◌+◌, ◌^◌, ◌<◌, ◌≤◌, ◌++◌, ◌∷◌, [], pos, map, length, IfOk, OnOk};
ghost use Rattle.ir_meaning.specs.Whole.{IsWidth};
ghost use Rattle.wrap_rows.specs.Normal.{row_of, clause_of};
ghost use Rattle.wrap_rows.specs.Blocks.{equals};
ghost use Rattle.wrap_rows.specs.Piece.{put_from};
ghost use Rattle.bit_rows.specs.Bits.{bits_of, bit_ranges, bits_row, lowest, others};

use mix_system::{Part, System};
use smallvec::SmallVec;
use std::alloc::Global;
use wrap_rows::{add_equation, power, times};
use wx_base::NoMemory;

// A number of 32 bits and its bits find room in place.
type Parts = SmallVec<Part, 33>;

/// Where the bits of a number stand in a system, the lowest first.
#[derive(Clone, Copy, Debug, PartialEq, Eq)]
pub enum BitVars {
    /// Variables one behind the other, from this one on.
    Helpers(u32),
    /// The bits of this number, told by the variables 0 and 1.
    Literal(u32),
}

impl BitVars {
    /// The variable of the lowest bit.
    pub fn lowest(self) -> u32
        ensures { result ≡ lowest self }
    {
        match self {
            BitVars::Helpers(first) => first,
            BitVars::Literal(number) => number % 2,
        }
    }

    /// The bits but the lowest.
    pub fn others(self) -> BitVars
        requires { lowest self < 2 ^ 31 }
        ensures { result ≡ others self }
    {
        match self {
            BitVars::Helpers(first) => BitVars::Helpers(first + 1),
            BitVars::Literal(number) => BitVars::Literal(number / 2),
        }
    }
}

/// Adds so many variables of bits.
///
/// After want of memory some of them may stand.
pub fn add_bit_vars(count: u32, into: &mut System) -> Result<(), NoMemory>
    requires { length into.old.ranges + count < 2 ^ 31 }
    ensures { OnOk result (into.new ≡ record into.old {
      ranges = into.old.ranges ++ bit_ranges count;
    }) }
{
    for _ in 0..count {
        into.add_var(0, 1)?;
    }
    Ok(())
}

/// Adds the equation of a number and its bits, which stand one behind the other from a variable on.
///
/// After want of memory its row or one of its clauses may stand.
pub fn add_bits_row(
    alloc: Global,
    into: &mut System,
    width: u32,
    number: u32,
    first: u32,
) -> Result<(), NoMemory>
    requires width { IsWidth width }
    requires before { number < first }
    requires known { first + width ≤ length into.old.ranges }
    requires few_vars { length into.old.ranges < 2 ^ 31 }
    requires rows { length into.old.rows + 1 < 2 ^ 31 }
    requires clauses { length into.old.clauses + 2 < 2 ^ 31 }
    ensures { OnOk result (into.new ≡ record into.old {
      rows = into.old.rows ++ row_of (bits_row width number first) ∷ [];
      clauses = into.old.clauses ++ map clause_of (equals (length into.old.rows) (pos 0));
    }) }
{
    let parts = parts_of(alloc, width, number, first)?;
    let row = into.add_row(parts.as_slice())?;
    add_equation(alloc, into, row, 0)
}

// The number less the sum of its bits.
fn parts_of(alloc: Global, width: u32, number: u32, first: u32) -> Result<Parts, NoMemory>
    requires width { IsWidth width }
    requires few { first + width < 2 ^ 31 }
    ensures { IfOk result (λ parts. parts.items ≡ bits_row width number first) }
{
    let mut parts = SmallVec::new(alloc);
    parts.push(times(1, number))?;
    for place in 0..width {
        parts.push(times(-power(place), first + place))?;
    }
    Ok(parts)
}

/// Writes the bits of a number, the lowest at this variable.
pub fn put_bits(width: u32, number: u32, first: u32, point: &mut [i128])
    requires known { first + width ≤ length point.old }
    requires few { length point.old < 2 ^ 31 }
    ensures { point.new ≡ put_from first (bits_of width number) point.old }
{
    let mut rest = number;
    for place in 0..width {
        point[(first + place) as usize] = i128::from(rest % 2);
        rest /= 2;
    }
}
