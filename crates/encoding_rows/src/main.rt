//! Reads rows, each a call on a function with its costs, and prints each with what the call gives. The
//! rows are the file `stdin`, and what they give, found by hand, is the file `stdout`.
#![tactic(auto)]

mod portions;
mod texts;

use std::alloc::Global;
use std::io;
use wx_base::NoMemory;

// What a row gives: its first word says which call it is.
fn answer(alloc: Global, of: &str, call: &str) -> Result<String, NoMemory> {
    match of {
        "portions" => portions::portions_row(alloc, call),
        _ => texts::no_row(alloc),
    }
}

fn main(rt: HostRuntime) -> io::Result<()> {
    for line in rt.lines(rt.alloc()) {
        let row = line?;
        let (of, call) = row.split_once(' ').unwrap_or((row.as_str(), ""));
        match answer(rt.alloc(), of, call) {
            Ok(text) => println!(rt; "{row} => {text}")?,
            Err(NoMemory) => println!(rt; "{row}: no memory")?,
        }
    }
    Ok(())
}
