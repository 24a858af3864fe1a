//! Reads rows, each a call of a library, and prints each with what the call gives.
//! The rows are the file `stdin`, and what they give, found by hand, is the file `stdout`.
#![tactic(auto)]

mod files;
mod names;
mod number;
mod operation;
mod outside;
mod proof_line;
mod sinks;

use outside::Memory;
use std::alloc::Global;
use std::io;
use wx_base::{Files, HostFiles, HostSink, NoMemory};

// What a row gives that stands by itself. `of` says which library it calls.
fn answer(alloc: Global, of: &str, call: &str) -> Result<String, NoMemory> {
    match of {
        "number" => number::answer(alloc, call),
        "operation" => operation::answer(alloc, call),
        "proof" => proof_line::answer(alloc, call),
        _ => Ok(String::from_str(alloc, "no row")?),
    }
}

// What a row gives: those of files and sinks stand on the rows before them.
fn answer_over<F: Files>(
    rt: &HostRuntime,
    memory: &mut Memory,
    host: &mut F,
    of: &str,
    call: &str,
) -> Result<String, NoMemory> {
    match of {
        "host" => files::answer(rt.alloc(), host, call),
        "stdout" => sinks::answer(rt.alloc(), &mut HostSink::new(rt), call),
        _ => match memory.answer(rt.alloc(), of, call)? {
            Some(text) => Ok(text),
            None => answer(rt.alloc(), of, call),
        },
    }
}

fn main(rt: HostRuntime) -> io::Result<()> {
    let Ok(mut memory) = Memory::new(rt.alloc()) else {
        return println!(rt; "no memory");
    };
    let mut host = HostFiles::new(&rt);
    for line in rt.lines(rt.alloc()) {
        let row = line?;
        let (of, call) = row.split_once(' ').unwrap_or((row.as_str(), ""));
        match answer_over(&rt, &mut memory, &mut host, of, call) {
            Ok(text) => println!(rt; "{row} = {text}")?,
            Err(NoMemory) => println!(rt; "{row}: no memory")?,
        }
    }
    Ok(())
}
