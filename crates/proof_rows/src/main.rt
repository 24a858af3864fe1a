//! Reads rows, each the text of a proof with `/` for a line feed, and prints each with its answer.
//! The rows are the file `stdin`, and what they give, found by hand, is the file `stdout`.
//!
//! `K TEXT` and `U TEXT` are texts over one of two systems; `begin K TEXT` is each beginning of the
//! text; `times N K A|B|C` is the text of A, N times B, and C; and `lines K TEXT|REST` is fed line
//! by line and ended with the rest.
#![tactic(auto)]

mod answers;
mod systems;

use std::alloc::Global;
use std::io;
use wx_base::NoMemory;

fn answer(alloc: Global, row: &str) -> Result<String, NoMemory> {
    let (of, call) = row.split_once(' ').unwrap_or((row, ""));
    match of {
        "K" => answers::text(alloc, false, call),
        "U" => answers::text(alloc, true, call),
        "begin" => answers::beginnings(alloc, call),
        "times" => answers::repeated(alloc, call),
        "lines" => answers::fed(alloc, call),
        _ => Ok(String::from_str(alloc, "no row")?),
    }
}

fn main(rt: HostRuntime) -> io::Result<()> {
    for line in rt.lines(rt.alloc()) {
        let row = line?;
        match answer(rt.alloc(), row.as_str()) {
            Ok(text) => println!(rt; "{row} => {text}")?,
            Err(NoMemory) => println!(rt; "{row}: no memory")?,
        }
    }
    Ok(())
}
