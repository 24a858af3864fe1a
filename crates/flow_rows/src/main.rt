//! Reads rows, each a call of a library over the blocks of a function, and prints each with what the call gives.
//! The rows are the file `stdin`, and what they give, found by hand, is the file `stdout`.
#![tactic(auto)]

mod edges;
mod flows;
mod graphs;
mod rules;

use std::alloc::Global;
use std::io;
use wx_base::NoMemory;

// What a row gives: its first word says which call it is.
fn answer(alloc: Global, of: &str, call: &str) -> Result<String, NoMemory> {
    match of {
        "limits" => rules::limits(alloc, call),
        "linear" => rules::linear(alloc, call),
        "divisor" => rules::divisor(alloc, call),
        "sorted" => graphs::sorted_once(alloc, call),
        "order" => graphs::order(alloc, call),
        "reached" => graphs::reached(alloc, call),
        "flow" => flows::flow(alloc, call),
        "use" => flows::path(alloc, call),
        _ => Ok(String::from_str(alloc, "no row")?),
    }
}

fn main(rt: HostRuntime) -> io::Result<()> {
    for line in rt.lines(rt.alloc()) {
        let row = line?;
        let (of, call) = row.split_once(' ').unwrap_or((row.as_str(), ""));
        match answer(rt.alloc(), of, call) {
            Ok(text) => println!(rt; "{row} = {text}")?,
            Err(NoMemory) => println!(rt; "{row}: no memory")?,
        }
    }
    Ok(())
}
