//! Prints each row of its input, and what `read` answers for it.
#![tactic(auto)]

mod answer;
mod row;
mod token;

use answer::answer;
use std::io;

fn main(rt: HostRuntime) -> io::Result<()> {
    for line in rt.lines(rt.alloc()) {
        let row = line?;
        match answer(rt.alloc(), row.as_str()) {
            Ok(told) => println!(rt; "{row} => {told}")?,
            Err(_) => println!(rt; "{row} => NoMemory")?,
        }
    }
    Ok(())
}
