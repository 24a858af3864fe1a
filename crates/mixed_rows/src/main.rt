//! Reads rows, each a script of calls of a solver of one level of a proof, and prints each with what
//! the calls give. The rows are the file `stdin`, and what they give, found by hand, is the file
//! `stdout`.
#![tactic(auto)]

mod budgets;
mod calls;
mod calm;
mod checked;
mod climb;
mod goals;
mod run;
mod shown;
mod systems;

use std::alloc::Global;
use std::io;
use wx_base::NoMemory;

// `RANGES | ROWS | CLAUSES | GOAL | BUDGET | CALLS`
fn answer(alloc: Global, row: &str) -> Result<String, NoMemory> {
    let (ranges, rest) = row.split_once('|').unwrap_or((row, ""));
    let (rows, rest) = rest.split_once('|').unwrap_or((rest, ""));
    let (clauses, rest) = rest.split_once('|').unwrap_or((rest, ""));
    let (goal, rest) = rest.split_once('|').unwrap_or((rest, ""));
    let (budget, calls) = rest.split_once('|').unwrap_or((rest, ""));
    let system = systems::made(alloc, ranges, rows, clauses)?;
    let checked = systems::made(alloc, ranges, rows, clauses)?;
    let budget = systems::number_of(budget);
    run::told(
        alloc,
        &system,
        checked,
        systems::lit_of(goal.trim()),
        budget,
        calls,
    )
}

fn main(rt: HostRuntime) -> io::Result<()> {
    for line in rt.lines(rt.alloc()) {
        let row = line?;
        match answer(rt.alloc(), row.as_str()) {
            Ok(text) => println!(rt; "{row} => {text}")?,
            Err(NoMemory) => println!(rt; "{row}: no memory")?,
        }
    }
    Ok(())
}
