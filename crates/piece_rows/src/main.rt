//! Reads rows, each an operation over at most three operands, and prints each with its piece or with what that lays.
//! The rows are the file `stdin`, and what they give, found by hand, is the file `stdout`.
#![tactic(auto)]

mod choice;
mod laid;
mod made;
mod normal;
mod shown;
mod words;

use std::alloc::Global;
use std::io;
use wx_base::NoMemory;

// What a row gives: its first word says what is shown.
fn answer(alloc: Global, of: &str, call: &str) -> Result<String, NoMemory> {
    match of {
        "piece" => choice::piece_row(alloc, call),
        "lay" => laid::lay_row(alloc, call),
        "normal" => normal::normal_row(alloc),
        _ => shown::said(alloc, "no row"),
    }
}

fn main(rt: HostRuntime) -> io::Result<()> {
    for line in rt.lines(rt.alloc()) {
        let row = line?;
        let (of, call) = row.split_once(' ').unwrap_or((row.as_str(), ""));
        match answer(rt.alloc(), of, call) {
            Ok(text) => println!(rt; "{row} => {text}")?,
            Err(NoMemory) => println!(rt; "{row}: no memory")?,
        }
    }
    Ok(())
}
