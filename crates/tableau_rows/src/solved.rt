ghost use Rattle.std.specs.Prelude.{◌≡◌, ℕ, ℤ, ◌<◌, pos, ◌*ℤ◌, ◌+ℤ◌, ◌-ℤ◌, ◌<ℤ◌, neg_ℤ, negsuc, [], ◌∷◌, ◌++◌, AllPairs, ◌≢◌, FitsSigned, length, map, All, IfOk, IfErr};
ghost use Rattle.std.specs.Int.{w128};
ghost use Rattle.wx_num.specs.Excess.{Overflows};
ghost use Rattle.mix_system.specs.Row.{number_at};
ghost use Rattle.tableau_rows.specs.Turning.{others, IsSumStep, turned_entry, entry_of};
ghost use Rattle.tableau_rows.specs.Equation.{total, coefficient, IsSparse};
ghost use Rattle.tableau_rows.specs.Substitution.{taken, sum_at, IsCombination, IsMultiple, IsTurningStep, IsSubstitutionStep};

use crate::reduction::{common_divisor, divided};
use crate::substitution::Substitution;
use crate::{Entry, Equation};
use mix_system::Part;
use std::alloc::Global;
use wx_base::NoMemory;
use wx_num::{Excess, Num, NumOp};

impl Equation {
    /// The equation of a row of a system, whose sum is the column `basic`, behind all its variables.
    pub fn of_row(alloc: Global, parts: &[Part], basic: u32) -> Result<Equation, NoMemory>
        requires known { All (λ part. part.var < basic) parts.now }
        requires rising { AllPairs (λ part later. part.var < later.var) parts.now }
        requires nonzero { All (λ part. part.coeff ≢ pos 0) parts.now }
        ensures basic { IfOk result (λ equation. equation.basic ≡ basic) }
        ensures entries { IfOk result (λ equation. equation.entries.items ≡ map entry_of parts.now
            ++ (record { column = basic; coeff = negsuc 0 }) ∷ []) }
    {
        let mut entries = Vec::with_capacity(alloc, parts.len())?;
        for part in parts {
            entries.push(Entry {
                column: part.var,
                coeff: part.coeff,
            })?;
        }
        entries.push(Entry {
            column: basic,
            coeff: -1,
        })?;
        Ok(Equation {
            basic,
            denominator: 1,
            entries,
        })
    }

    /// How often a column is taken.
    pub fn coefficient(&self, column: u32) -> i128
        ensures { result ≡ taken self.now column }
    {
        coefficient_of(&self.entries, column)
    }

    /// The sum of the other entries where each column has a value: the numerator, over the denominator, of the basic column's value.
    pub fn numerator(&self, values: &[i128]) -> Result<i128, Excess>
        requires { All (λ entry. entry.column < length values.now) self.now.entries.items }
        ensures value { IfOk result (λ sum. sum ≡ total (number_at values.now)
            (others self.now.basic self.now.entries.items)) }
        ensures step { IfErr result (IsSumStep (number_at values.now)
            (others self.now.basic self.now.entries.items)) }
        ensures overflows { IfErr result Overflows }
    {
        sum_of_others(&self.entries, self.basic, values)
    }

    /// The same equation, solved for another of its columns, or the step that would overflow.
    pub fn solved_for(
        &self,
        alloc: Global,
        column: u32,
    ) -> Result<Result<Equation, Excess>, NoMemory>
        requires { taken self.now column ≢ pos 0 }
        ensures basic { IfOk result (λ found. IfOk found (λ equation. equation.basic ≡ column)) }
        ensures multiple { IfOk result (λ found. IfOk found
            (λ equation. IsMultiple equation self.now)) }
        ensures step { IfOk result (λ found. IfErr found (IsTurningStep self.now)) }
        ensures overflows { IfOk result (λ found. IfErr found Overflows) }
    {
        let coeff = self.coefficient(column);
        if coeff > 0 {
            return match turned_entries(alloc, &self.entries, true)? {
                Ok(entries) => Ok(Ok(Equation {
                    basic: column,
                    denominator: coeff,
                    entries,
                })),
                Err(excess) => Ok(Err(excess)),
            };
        }
        let denominator = match Num::sub(0, coeff) {
            Ok(denominator) => denominator,
            Err(excess) => return Ok(Err(excess)),
        };
        match turned_entries(alloc, &self.entries, false)? {
            Ok(entries) => Ok(Ok(Equation {
                basic: column,
                denominator,
                entries,
            })),
            Err(excess) => Ok(Err(excess)),
        }
    }

    /// The equation where `pivot` is put into it, so that the column `entering` is gone; or the step that would overflow.
    pub fn substituted(
        &self,
        alloc: Global,
        pivot: &Equation,
        entering: u32,
    ) -> Result<Result<Equation, Excess>, NoMemory>
        requires pivot_takes { taken pivot.now entering ≢ pos 0 }
        requires row_takes { taken self.now entering ≢ pos 0 }
        requires apart { self.now.basic ≢ pivot.now.basic }
        requires pivot_without { taken pivot.now self.now.basic ≡ pos 0 }
        requires row_without { taken self.now pivot.now.basic ≡ pos 0 }
        ensures basic { IfOk result (λ found. IfOk found (λ equation. equation.basic
            ≡ self.now.basic)) }
        ensures combination { IfOk result (λ found. IfOk found
            (λ equation. IsCombination equation self.now pivot.now)) }
        ensures gone { IfOk result (λ found. IfOk found (λ equation. taken equation entering
            ≡ pos 0)) }
        ensures step { IfOk result (λ found. IfErr found
            (IsSubstitutionStep self.now pivot.now entering)) }
        ensures overflows { IfOk result (λ found. IfErr found Overflows) }
    {
        let substitution = Substitution::new(self, pivot, entering);
        match substitution.entries(alloc)? {
            Ok(entries) => Ok(Ok(Equation::reduced(self.basic, entries))),
            Err(excess) => Ok(Err(excess)),
        }
    }

    // The equation of some entries, divided by their greatest common divisor.
    fn reduced(basic: u32, entries: Vec<Entry>) -> Equation
        requires sparse { IsSparse entries.items }
        requires below { coefficient entries.items basic <ℤ pos 0 }
        requires fits { FitsSigned w128 (neg_ℤ (coefficient entries.items basic)) }
        ensures basic { result.basic ≡ basic }
        ensures sums { (divisor : ℕ) × (0 < divisor)
            × ((number : ℕ → ℤ) → total number entries.items
            ≡ pos divisor *ℤ sum_at number result) }
    {
        let divisor = common_divisor(&entries);
        let entries = divided(entries, divisor);
        let denominator = -coefficient_of(&entries, basic);
        Equation {
            basic,
            denominator,
            entries,
        }
    }
}

// The sum of the entries beside the basic column.
fn sum_of_others(entries: &[Entry], basic: u32, values: &[i128]) -> Result<i128, Excess>
    requires { All (λ entry. entry.column < length values.now) entries.now }
    ensures value { IfOk result (λ sum. sum ≡ total (number_at values.now)
        (others basic entries.now)) }
    ensures step { IfErr result (IsSumStep (number_at values.now) (others basic entries.now)) }
    ensures overflows { IfErr result Overflows }
{
    let mut sum = 0;
    for entry in entries {
        if entry.column == basic {
            continue;
        }
        let product = Num::mul(entry.coeff, values[entry.column as usize])?;
        sum = Num::add(sum, product)?;
    }
    Ok(sum)
}

// The entries with their signs turned or as they are, where each sign could be turned.
fn turned_entries(
    alloc: Global,
    entries: &[Entry],
    turn: bool,
) -> Result<Result<Vec<Entry>, Excess>, NoMemory>
    requires { IsSparse entries.now }
    ensures turned { IfOk result (λ found. IfOk found (λ made. made.items
        ≡ map (turned_entry turn) entries.now)) }
    ensures step { IfOk result (λ found. IfErr found (λ step. (column : ℕ)
        × (step ≡ record { op = NumOp.Minus; x = pos 0; y = coefficient entries.now column }))) }
    ensures overflows { IfOk result (λ found. IfErr found Overflows) }
{
    let mut made = Vec::with_capacity(alloc, entries.len())?;
    for entry in entries {
        let negation = match Num::sub(0, entry.coeff) {
            Ok(negation) => negation,
            Err(excess) => return Ok(Err(excess)),
        };
        made.push(oriented(*entry, negation, turn))?;
    }
    Ok(Ok(made))
}

// The entry with its sign turned or as it is.
fn oriented(entry: Entry, negation: i128, turn: bool) -> Entry
    requires { negation ≡ neg_ℤ entry.coeff }
    ensures { result ≡ turned_entry turn entry }
{
    if turn {
        return Entry {
            column: entry.column,
            coeff: negation,
        };
    }
    entry
}

// How often a column is taken.
fn coefficient_of(entries: &[Entry], column: u32) -> i128
    requires { IsSparse entries.now }
    ensures { result ≡ coefficient entries.now column }
{
    let mut low = 0;
    let mut high = entries.len();
    while low < high {
        let middle = low + (high - low) / 2;
        let entry = entries[middle];
        if entry.column == column {
            return entry.coeff;
        }
        if entry.column < column {
            low = middle + 1;
        } else {
            high = middle;
        }
    }
    0
}
