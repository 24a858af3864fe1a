ghost use Rattle.std.specs.Prelude.{◌≡◌, ◌<◌, ◌≢◌, length, All, IsTrue};

use crate::systems::{no_call, numbers_of};
use mix_system::System;
use std::alloc::Global;
use tableau_rows::{Entry, Equation};
use wx_base::NoMemory;
use wx_num::Excess;

// The equations of a system's rows, by the numbers of the rows: `solved ROW COLUMN` for a column,
// `put ROW INTO COLUMN` one into another for a column, and `numerator ROW VALUE ..` at the columns' values.
pub fn answer(alloc: Global, system: &System, of: &str, call: &str) -> Result<String, NoMemory> {
    let numbers = numbers_of(alloc, call)?;
    match (of, numbers.as_slice()) {
        ("numerator", [row, values @ ..]) => numerator(alloc, system, *row, values),
        ("solved", [row, column]) => solved(alloc, system, *row, *column),
        ("put", [row, other, column]) => put(alloc, system, (*row, *other), *column),
        _ => no_call(alloc),
    }
}

// The equation of a row, `None` where there is no such row.
fn equation_of(alloc: Global, system: &System, row: i128) -> Result<Option<Equation>, NoMemory> {
    let Ok(row) = u32::try_from(row) else {
        return Ok(None);
    };
    if row >= system.rows() {
        return Ok(None);
    }
    let basic = system.vars() + row;
    Ok(Some(Equation::of_row(alloc, system.row(row), basic)?))
}

fn told(alloc: Global, found: Result<Equation, Excess>) -> Result<String, NoMemory> {
    Ok(match found {
        Ok(equation) => format!(in alloc; "{equation:?}")?,
        Err(excess) => format!(in alloc; "{excess}")?,
    })
}

fn solved(alloc: Global, system: &System, row: i128, column: i128) -> Result<String, NoMemory> {
    let (Ok(column), Some(equation)) = (u32::try_from(column), equation_of(alloc, system, row)?)
    else {
        return no_call(alloc);
    };
    if equation.coefficient(column) == 0 {
        return no_call(alloc);
    }
    told(alloc, equation.solved_for(alloc, column)?)
}

fn put(
    alloc: Global,
    system: &System,
    rows: (i128, i128),
    column: i128,
) -> Result<String, NoMemory> {
    let Ok(column) = u32::try_from(column) else {
        return no_call(alloc);
    };
    let (Some(pivot), Some(equation)) = (
        equation_of(alloc, system, rows.0)?,
        equation_of(alloc, system, rows.1)?,
    ) else {
        return no_call(alloc);
    };
    put_into(alloc, &pivot, &equation, column)
}

fn put_into(
    alloc: Global,
    pivot: &Equation,
    equation: &Equation,
    column: u32,
) -> Result<String, NoMemory> {
    if pivot.coefficient(column) == 0 || equation.coefficient(column) == 0 {
        return no_call(alloc);
    }
    if pivot.basic == equation.basic {
        return no_call(alloc);
    }
    if pivot.coefficient(equation.basic) != 0 || equation.coefficient(pivot.basic) != 0 {
        return no_call(alloc);
    }
    told(alloc, equation.substituted(alloc, pivot, column)?)
}

fn numerator(
    alloc: Global,
    system: &System,
    row: i128,
    values: &[i128],
) -> Result<String, NoMemory> {
    let Some(equation) = equation_of(alloc, system, row)? else {
        return no_call(alloc);
    };
    if !are_below(&equation.entries, values.len()) {
        return no_call(alloc);
    }
    Ok(match equation.numerator(values) {
        Ok(number) => format!(in alloc; "{number}")?,
        Err(excess) => format!(in alloc; "{excess}")?,
    })
}

// Whether there are more columns than the entries name.
fn are_below(entries: &[Entry], columns: usize) -> bool
    ensures { IsTrue result → All (λ entry. entry.column < columns) entries.now }
{
    entries
        .iter()
        .all(|entry| (entry.column as usize) < columns)
}
