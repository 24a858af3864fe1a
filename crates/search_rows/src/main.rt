//! Reads rows, each a script of calls of a search over clauses, and prints each with what the calls
//! give. The rows are the file `stdin`, and what they give, found by hand, is the file `stdout`.
#![tactic(auto)]

mod run;
mod shown;
mod solve;
mod steps;
mod system;

use mix_system::System;
use std::alloc::Global;
use std::io;
use wx_base::NoMemory;

// `RANGES | CLAUSES | BUDGET | CALLS`
fn answer(alloc: Global, row: &str) -> Result<String, NoMemory> {
    let (ranges, rest) = row.split_once('|').unwrap_or((row, ""));
    let (clauses, rest) = rest.split_once('|').unwrap_or((rest, ""));
    let (budget, calls) = rest.split_once('|').unwrap_or((rest, ""));
    let mut system = System::new(alloc);
    system::add_terms(&mut system, ranges)?;
    system::add_clauses(alloc, &mut system, clauses)?;
    run::told(alloc, &system, system::budget_of(budget), calls)
}

fn main(rt: HostRuntime) -> io::Result<()> {
    for line in rt.lines(rt.alloc()) {
        let row = line?;
        match answer(rt.alloc(), row.as_str()) {
            Ok(text) => println!(rt; "{row} => {text}")?,
            Err(NoMemory) => println!(rt; "{row}: no memory")?,
        }
    }
    Ok(())
}
