//! Reads rows, each a call of a library of the solver, and prints each with what the call gives.
//! The rows are the file `stdin`, and what they give, found by hand, is the file `stdout`.
#![tactic(auto)]

mod calm;
mod copies;
mod equations;
mod literals;
mod script;
mod splits;
mod systems;
mod work;

use mix_system::System;
use std::alloc::Global;
use std::io;
use wx_base::NoMemory;

// What a row gives. The system lasts from row to row, until a row `system`.
fn answer(alloc: Global, system: &mut System, of: &str, call: &str) -> Result<String, NoMemory> {
    match of {
        "system" | "var" | "row" | "clause" | "shown" | "holds" => {
            systems::answer(alloc, system, of, call)
        }
        "check" => script::answer(alloc, system, call),
        "solved" | "put" | "numerator" => equations::answer(alloc, system, of, call),
        "literals" | "negations" => literals::answer(alloc, of, call),
        "tally" => work::answer(alloc, call),
        _ => copies::answer(alloc, of, call),
    }
}

fn main(rt: HostRuntime) -> io::Result<()> {
    let mut system = System::new(rt.alloc());
    for line in rt.lines(rt.alloc()) {
        let row = line?;
        let (of, call) = row.split_once(' ').unwrap_or((row.as_str(), ""));
        match answer(rt.alloc(), &mut system, of, call) {
            Ok(text) => println!(rt; "{row} = {text}")?,
            Err(NoMemory) => println!(rt; "{row}: no memory")?,
        }
    }
    Ok(())
}
