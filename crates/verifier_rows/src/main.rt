//! Reads rows, each a call of the verifier, of a table of costs or of what stands below them, and
//! prints each with what the call gives. The rows are the file `stdin`, and what they give, found
//! by hand, is the file `stdout`.
#![tactic(auto)]

mod costs;
mod links;
mod names;
mod texts;
mod told;
mod verdict;

use std::alloc::Global;
use std::io;
use wx_base::NoMemory;

// What a row gives: its first word says which call it is.
fn answer(alloc: Global, of: &str, call: &str) -> Result<String, NoMemory> {
    match of {
        "rule" => verdict::rule(alloc, call),
        "limit" => verdict::limit(alloc, call),
        "copies" => verdict::copies(alloc, call),
        "links" => verdict::links(alloc, call),
        "cost" => verdict::cost(alloc, call),
        "edges" => names::edges(alloc, call),
        "block" => names::block(alloc, call),
        "repeat" => names::repeat(alloc, call),
        "find" => names::find(alloc, call),
        _ => told::no_row(alloc),
    }
}

fn main(rt: HostRuntime) -> io::Result<()> {
    for line in rt.lines(rt.alloc()) {
        let row = line?;
        let (of, call) = row.split_once(' ').unwrap_or((row.as_str(), ""));
        match answer(rt.alloc(), of, call) {
            Ok(text) => println!(rt; "{row} => {text}")?,
            Err(NoMemory) => println!(rt; "{row}: no memory")?,
        }
    }
    Ok(())
}
