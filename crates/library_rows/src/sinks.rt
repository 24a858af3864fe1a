use std::alloc::Global;
use wx_base::{NoMemory, Sink};

// What a sink answers to the bytes, and how many faults it counts then.
pub fn answer<S: Sink>(alloc: Global, sink: &mut S, bytes: &str) -> Result<String, NoMemory> {
    Ok(match sink.put(bytes.as_bytes()) {
        Ok(()) => format!(in alloc; "all, {} faults", sink.faults())?,
        Err(error) => format!(in alloc; "{error}, {} faults", sink.faults())?,
    })
}
