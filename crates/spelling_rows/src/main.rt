//! Reads rows, each the text of a proof with `/` for a line feed, and prints each with what `parse`
//! and `print` of proof_spelling give.
//! The rows are the file `stdin`, and what they give, found by hand, is the file `stdout`.
//!
//! `read TEXT` is a text, read and printed; `begin TEXT` is each beginning of the text;
//! `times N A|B|C` is the text of A, N times B, and C; and `print LINES` is a proof that is built
//! of its goal, its shape, its steps and their nodes, and printed.
#![tactic(auto)]

mod built;
mod texts;

use std::alloc::Global;
use std::io;
use wx_base::NoMemory;

fn answer(alloc: Global, row: &str) -> Result<String, NoMemory> {
    let (of, call) = row.split_once(' ').unwrap_or((row, ""));
    match of {
        "read" => texts::text(alloc, call),
        "begin" => texts::beginnings(alloc, call),
        "times" => texts::repeated(alloc, call),
        "print" => built::printed(alloc, call),
        _ => Ok(String::from_str(alloc, "no row")?),
    }
}

fn main(rt: HostRuntime) -> io::Result<()> {
    for line in rt.lines(rt.alloc()) {
        let row = line?;
        match answer(rt.alloc(), row.as_str()) {
            Ok(text) => println!(rt; "{row} => {text}")?,
            Err(NoMemory) => println!(rt; "{row}: no memory")?,
        }
    }
    Ok(())
}
