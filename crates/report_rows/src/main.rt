//! Reads rows, each a call of what answers a command, and prints each with what the call gives.
//! The rows are the file `stdin`, and what they give, found by hand, is the file `stdout`.
#![tactic(auto)]

mod answers;
mod commands;
mod jobs;
mod trials;

use std::alloc::Global;
use std::io;
use wx_base::NoMemory;

// What a row gives: its first word says which call it is.
fn answer(alloc: Global, of: &str, call: &str) -> Result<String, NoMemory> {
    match of {
        "answer" => answers::answer(alloc, call),
        "command" => commands::command(alloc, call),
        "words" => commands::words(alloc, call),
        "without-words" => commands::without_words(alloc, call),
        "job" => jobs::job(alloc, call),
        "arguments" => jobs::arguments(alloc, call),
        "trial" => trials::trial(alloc, call),
        _ => Ok(String::from_str(alloc, "no row")?),
    }
}

fn main(rt: HostRuntime) -> io::Result<()> {
    for line in rt.lines(rt.alloc()) {
        let row = line?;
        let (of, call) = row.split_once(' ').unwrap_or((row.as_str(), ""));
        match answer(rt.alloc(), of, call) {
            Ok(text) => println!(rt; "{row} = {text}")?,
            Err(NoMemory) => println!(rt; "{row}: no memory")?,
        }
    }
    Ok(())
}
